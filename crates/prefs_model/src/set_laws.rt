//! What a set of texts has, for every set: each law is the contract of a function that does nothing.
ghost use Rattle.std.specs.Prelude.{◌≡◌, ◌≢◌, ◌↔◌, ℕ, List, true, false, IsTrue, Contains};
ghost use Rattle.std.specs.Str.{IsUtf8};
ghost use Rattle.prefs_model.specs.Texts.{IsTextSet, has_text, with_text, without_text};

/// A set has the texts of its list.
pub fn texts_are_members()
    ensures { (texts : List (List ℕ)) (text : List ℕ) → IsTrue (has_text texts text) ↔ Contains texts text }
{}

/// Sets that have the same texts are the same set.
pub fn one_set()
    ensures { (a b : List (List ℕ)) → IsTextSet a → IsTextSet b → ((text : List ℕ) → has_text a text ≡ has_text b text) → a ≡ b }
{}

/// What a set has once a text was added.
pub fn texts_after_insert()
    ensures set { (texts : List (List ℕ)) (text : List ℕ) → IsTextSet texts → IsUtf8 text → IsTextSet (with_text texts text) }
    ensures this_text { (texts : List (List ℕ)) (text : List ℕ) → has_text (with_text texts text) text ≡ true }
    ensures other_texts { (texts : List (List ℕ)) (text other : List ℕ) → other ≢ text → has_text (with_text texts text) other ≡ has_text texts other }
    ensures same_text { (texts : List (List ℕ)) (text : List ℕ) → IsTextSet texts → has_text texts text ≡ true → with_text texts text ≡ texts }
{}

/// What a set has once a text was removed.
pub fn texts_after_remove()
    ensures set { (texts : List (List ℕ)) (text : List ℕ) → IsTextSet texts → IsTextSet (without_text texts text) }
    ensures this_text { (texts : List (List ℕ)) (text : List ℕ) → has_text (without_text texts text) text ≡ false }
    ensures other_texts { (texts : List (List ℕ)) (text other : List ℕ) → other ≢ text → has_text (without_text texts text) other ≡ has_text texts other }
    ensures absent { (texts : List (List ℕ)) (text : List ℕ) → has_text texts text ≡ false → without_text texts text ≡ texts }
{}
