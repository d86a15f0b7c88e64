ghost use Rattle.std.specs.Prelude.{◌≡◌, ◌↔◌, List, ℕ, IsTrue, IfOk};

use std::alloc::{AllocError, Global};

/// An item that is kept in the order of its keys: a pair of a map, or a text of a set.
pub trait Keyed: Drop {
    /// The key that orders it.
    ghost key_of: { Self → List ℕ };

    /// What holds of each item, by its type.
    ghost is_valid: { Self → Type 0 };

    /// The key, as a text.
    fn sort_key(&self) -> &str
        ensures { result.now ≡ key_of self.now };

    /// Reads the item and tells nothing but that it is valid.
    fn know_valid(&self)
        ensures { is_valid self.now };

    /// Whether both are the same.
    fn is_equal_to(&self, other: &Self) -> bool
        ensures { IsTrue result ↔ (self.now ≡ other.now) };

    /// An equal item.
    fn try_copy(&self, alloc: Global) -> Result<Self, AllocError>
        ensures { IfOk result (λ copy. copy ≡ self.now) };
}
