ghost use Rattle.std.specs.Prelude.{◌≡◌, ◌≤◌, ◌-◌, ◌^◌, ℕ, Bool, List, is_err, length};
ghost use Rattle.store_traits.specs.Faults.{Counts};
ghost use Rattle.byte_io.specs.Source.{Reads};

use store_traits::Failed;

/// Where bytes come from.
///
/// A source that is told says which bytes are left. A read fails only where the count of faults rose in it.
pub trait Source: Drop {
    /// Whether sources of this type tell what is left.
    ghost told: { Bool };

    /// The bytes that are left.
    ghost left: { Self → List ℕ };

    /// The count of faults.
    ghost count: { Self → ℕ };

    /// Takes the next bytes, as many as it likes and `into` has room for, to the front of `into`. Where
    /// `into` is not empty, 0 bytes mean the end. A read that fails takes nothing.
    fn read(&mut self, into: &mut [u8]) -> Result<usize, Failed>
        ensures taken { Reads told (left self.old) (length into.old) result into.new (left self.new) }
        ensures faults { Counts (is_err result) (count self.old) (count self.new) }
        ensures fits { count self.new ≤ 2 ^ 64 - 1 };
}
