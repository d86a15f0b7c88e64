ghost use Rattle.std.specs.Prelude.{◌≡◌, ◌≤◌, ◌-◌, ◌^◌, ℕ, Bool, List, is_err};
ghost use Rattle.store_traits.specs.Faults.{Counts};
ghost use Rattle.byte_io.specs.Sink.{Writes};

use store_traits::Failed;

/// Where bytes go.
///
/// A sink that is told says what it holds. A write fails only where the count of faults rose in it.
pub trait Sink: Drop {
    /// Whether sinks of this type tell what they hold.
    ghost told: { Bool };

    /// The bytes that it took.
    ghost held: { Self → List ℕ };

    /// The count of faults.
    ghost count: { Self → ℕ };

    /// Takes the first bytes of a piece, as many as it likes, and at least one of a piece that is not empty.
    /// A write that fails takes nothing.
    fn write(&mut self, piece: &[u8]) -> Result<usize, Failed>
        ensures taken { Writes told (held self.old) piece.now result (held self.new) }
        ensures faults { Counts (is_err result) (count self.old) (count self.new) }
        ensures fits { count self.new ≤ 2 ^ 64 - 1 };
}
