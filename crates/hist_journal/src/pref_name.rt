ghost use Rattle.std.specs.Prelude.{◌≡◌, string_bytes};

use std::marker::Model;

/// The name of a section of the old settings. Clauses see its bytes.
#[derive(Drop)]
pub struct PrefName {
    text: String,
}

impl Model for PrefName {
    ghost use Rattle.std.specs.Prelude.{List, ℕ, string_bytes};

    ghost Value = { List ℕ };

    ghost view = { λ name. string_bytes name.text };
}

impl PrefName {
    /// Takes no memory.
    pub fn new(text: String) -> PrefName
        ensures { result ≡ string_bytes text }
    {
        PrefName { text }
    }

    pub fn as_str(&self) -> &str
        ensures { result.now ≡ self.now }
    {
        self.text.as_str()
    }
}
