ghost use Rattle.std.specs.Prelude.{◌≡◌};

use std::sync::Arc;

/// A value that is kept, with the version and the edition of the history that it is of.
#[derive(Drop)]
pub struct CachedValue<V> {
    version: u64,
    edition: u64,
    value: Arc<V>,
}

impl<V> CachedValue<V> {
    /// It takes no memory.
    pub fn new(version: u64, edition: u64, value: Arc<V>) -> CachedValue<V>
        ensures { result ≡ record { version = version; edition = edition; value = value } }
    {
        CachedValue {
            version,
            edition,
            value,
        }
    }

    /// How many raises the history has.
    pub fn version(&self) -> u64
        ensures { result ≡ self.now.version }
    {
        self.version
    }

    /// How many value changes the history has.
    pub fn edition(&self) -> u64
        ensures { result ≡ self.now.edition }
    {
        self.edition
    }

    pub fn value(&self) -> &Arc<V>
        ensures { result.now ≡ self.now.value }
    {
        &self.value
    }
}
