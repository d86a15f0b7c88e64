ghost use Rattle.std.specs.Prelude.{◌≡◌, ◌↔◌, IsTrue, IfOk, string_bytes};
ghost use Rattle.std.specs.Str.{IsUtf8};

use crate::keyed::Keyed;
use std::alloc::{AllocError, Global};
use std::marker::Model;

/// A text. Clauses see its bytes.
#[derive(Drop)]
pub struct PrefText {
    text: String,
}

impl Model for PrefText {
    ghost use Rattle.std.specs.Prelude.{List, ℕ, string_bytes};

    ghost Value = { List ℕ };

    ghost view = { λ t. string_bytes t.text };
}

impl PrefText {
    /// Takes no memory.
    pub fn new(text: String) -> PrefText
        ensures { result ≡ string_bytes text }
    {
        PrefText { text }
    }

    pub fn as_str(&self) -> &str
        ensures value { result.now ≡ self.now }
        ensures text { IsUtf8 self.now }
    {
        self.text.as_str()
    }

    /// Takes no memory.
    pub fn into_string(self) -> String
        ensures { string_bytes result ≡ self }
    {
        self.text
    }

    /// Whether both are the same text.
    pub fn equal(&self, other: &PrefText) -> bool
        ensures { IsTrue result ↔ (self.now ≡ other.now) }
    {
        self.as_str() == other.as_str()
    }

    /// An equal text.
    pub fn try_clone(&self, alloc: Global) -> Result<PrefText, AllocError>
        ensures { IfOk result (λ text. text ≡ self.now) }
    {
        let text = String::from_str(alloc, self.as_str())?;
        Ok(PrefText { text })
    }
}

// In a set of texts each text is its own key.
impl Keyed for PrefText {
    ghost use Rattle.std.specs.Str.{IsUtf8};

    ghost key_of = { λ text. text };

    ghost is_valid = { IsUtf8 };

    fn sort_key(&self) -> &str {
        self.as_str()
    }

    fn know_valid(&self) {
        let _ = self.as_str();
    }

    fn is_equal_to(&self, other: &PrefText) -> bool {
        self.equal(other)
    }

    fn try_copy(&self, alloc: Global) -> Result<PrefText, AllocError> {
        self.try_clone(alloc)
    }
}
