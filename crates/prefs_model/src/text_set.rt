ghost use Rattle.std.specs.Prelude.{◌≡◌, ◌↔◌, ℕ, List, [], IsTrue, not, IfOk, OnOk, OnErr, IsOk};
ghost use Rattle.prefs_model.specs.Texts.{IsTextSet, has_text, set_of, with_text, without_text};

use crate::sorted_vec::SortedVec;
use crate::{Entries, PrefText};
use std::alloc::{AllocError, Global};
use std::marker::Model;

/// A set of texts. Clauses see the list of texts, which rises strictly by bytes.
#[derive(Drop)]
pub struct TextSet {
    texts: SortedVec<PrefText>,
}

impl Model for TextSet {
    ghost use Rattle.std.specs.Prelude.{List, ℕ};

    ghost Value = { List (List ℕ) };

    ghost view = { λ s. s.texts };
}

impl TextSet {
    /// The empty set, which takes no memory yet.
    pub fn new(alloc: Global) -> TextSet
        ensures { result ≡ [] }
    {
        TextSet {
            texts: SortedVec::new(alloc),
        }
    }

    /// The set of the entries, in time n log n for n entries.
    pub fn from_entries(entries: Entries<PrefText>) -> Result<TextSet, AllocError>
        ensures { IfOk result (λ set. set ≡ set_of entries) }
    {
        let texts = SortedVec::from_entries(entries)?;
        // Its texts rise.
        let _ = texts.as_slice();
        Ok(TextSet { texts })
    }

    /// The texts, in rising order.
    pub fn texts(&self) -> &[PrefText]
        ensures texts { result.now ≡ self.now }
        ensures set { IsTextSet self.now }
    {
        self.texts.as_slice()
    }

    /// Whether the text is there.
    pub fn has(&self, text: &PrefText) -> bool
        ensures { result ≡ has_text self.now text.now }
    {
        self.texts.get(text.as_str()).is_some()
    }

    /// Adds a text, and says whether it was not there. Only a new text takes memory. A refusal leaves the set as it was.
    pub fn insert(&mut self, text: PrefText) -> Result<bool, AllocError>
        ensures ok { OnOk result (self.new ≡ with_text self.old text) }
        ensures is_new { IfOk result (λ is_new. is_new ≡ not (has_text self.old text)) }
        ensures err { OnErr result (self.new ≡ self.old) }
        ensures overwrite_succeeds { IsTrue (has_text self.old text) → IsOk result }
    {
        self.texts.insert(text)
    }

    /// Takes out a text, and says whether it was there.
    pub fn remove(&mut self, text: &PrefText) -> bool
        ensures set { self.new ≡ without_text self.old text.now }
        ensures removed { result ≡ has_text self.old text.now }
    {
        self.texts.remove(text.as_str())
    }

    /// Whether both have the same texts.
    pub fn equal(&self, other: &TextSet) -> bool
        ensures { IsTrue result ↔ (self.now ≡ other.now) }
    {
        self.texts.equal(&other.texts)
    }

    /// An equal set.
    pub fn try_clone(&self, alloc: Global) -> Result<TextSet, AllocError>
        ensures { IfOk result (λ set. set ≡ self.now) }
    {
        let texts = self.texts.try_clone(alloc)?;
        Ok(TextSet { texts })
    }
}
