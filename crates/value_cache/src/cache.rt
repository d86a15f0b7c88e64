ghost use Rattle.std.specs.Prelude.{◌≡◌, None, option_map};
ghost use Rattle.value_cache.specs.Cached.{cached_seen, kept_seen, published};

use crate::CachedValue;

/// The value that a process keeps, if it keeps one. No call of it takes memory.
#[derive(Drop)]
pub struct Cache<V> {
    kept: Option<CachedValue<V>>,
}

impl<V> Cache<V> {
    /// A cache that keeps nothing yet.
    pub fn new() -> Cache<V>
        ensures { kept_seen result ≡ None }
    {
        Cache { kept: None }
    }

    /// What is kept.
    pub fn look(&self) -> Option<&CachedValue<V>>
        ensures { option_map (λ kept. cached_seen kept.now) result ≡ kept_seen self.now }
    {
        self.kept.as_ref()
    }

    /// Keeps this value, unless one of the same or of a greater version is kept.
    pub fn publish(&mut self, kept: CachedValue<V>)
    where
        V: Drop,
        ensures { kept_seen self.new ≡ published (kept_seen self.old) (cached_seen kept) }
    {
        if self.look().is_none_or(|old| old.version() < kept.version()) {
            self.kept = Some(kept);
        }
    }

    /// Keeps nothing any more.
    pub fn empty(&mut self)
    where
        V: Drop,
        ensures { kept_seen self.new ≡ None }
    {
        self.kept = None;
    }
}
