ghost use Rattle.std.specs.Prelude.{◌≡◌, ◌<◌, ◌↔◌, length, IsTrue, IfOk, MatchResult, string_bytes};
ghost use Rattle.prefs_model.specs.Key.{IsKey};

use crate::PrefText;
use std::alloc::{AllocError, Global};
use std::marker::Model;
use thiserror::Error;

/// How many bytes a key has at the most.
pub const MAX_KEY_LEN: usize = 1024;

/// The name of a setting: a text of at most 1,024 bytes. Clauses see its bytes.
#[derive(Drop)]
pub struct PrefKey {
    text: PrefText,
}

/// A text is too long for a key: it has `len` bytes.
#[derive(Clone, Copy, Debug, PartialEq, Eq, Error)]
#[error("a key of {len} bytes is too long")]
pub struct KeyTooLong {
    pub len: u64,
}

impl Model for PrefKey {
    ghost use Rattle.std.specs.Prelude.{List, ℕ, length, ◌≤◌};

    ghost Value = { List ℕ };

    ghost view = { λ k. k.text };

    ghost invariant = { λ k. length k.text ≤ 1024 };
}

impl PrefKey {
    /// Takes no memory. Refuses exactly the texts of more than 1,024 bytes.
    pub fn new(text: String) -> Result<PrefKey, KeyTooLong>
        ensures { MatchResult result (λ key. key ≡ string_bytes text) (λ e. (e.len ≡ length (string_bytes text)) × (1024 < e.len)) }
    {
        let len = text.len();
        if len > MAX_KEY_LEN {
            return Err(KeyTooLong { len: len as u64 });
        }
        Ok(PrefKey {
            text: PrefText::new(text),
        })
    }

    pub fn as_str(&self) -> &str
        ensures value { result.now ≡ self.now }
        ensures key { IsKey self.now }
    {
        self.text.as_str()
    }

    /// Whether both are the same text.
    pub fn equal(&self, other: &PrefKey) -> bool
        ensures { IsTrue result ↔ (self.now ≡ other.now) }
    {
        self.text.equal(&other.text)
    }

    /// An equal key.
    pub fn try_clone(&self, alloc: Global) -> Result<PrefKey, AllocError>
        ensures { IfOk result (λ key. key ≡ self.now) }
    {
        let text = self.text.try_clone(alloc)?;
        Ok(PrefKey { text })
    }
}
