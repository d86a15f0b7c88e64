ghost use Rattle.std.specs.Prelude.{◌≡◌, IsTrue, is_err};
ghost use Rattle.store_traits.specs.Faults.{Counts};
ghost use Rattle.byte_io.specs.Sink.{WritesAll};

use crate::Sink;
use store_traits::Failed;

/// Writes the whole piece. Where a write fails, the sink took a front of it.
pub fn write_all<K: Sink>(sink: &mut K, piece: &[u8]) -> Result<(), Failed>
    ensures taken { IsTrue K.told → WritesAll (K.held sink.old) piece.now result (K.held sink.new) }
    ensures faults { Counts (is_err result) (K.count sink.old) (K.count sink.new) }
{
    let mut rest = piece;
    while !rest.is_empty() {
        let Ok(taken) = sink.write(rest) else {
            return Err(Failed);
        };
        rest = &rest[taken..];
    }
    Ok(())
}
