ghost use Rattle.std.specs.Prelude.{◌≡◌, ◌<◌, IsTrue, string_bytes, [], length, OnOk};
ghost use Rattle.store_traits.specs.Faults.{Counts};
ghost use Rattle.script_lang.specs.Gathering.{Gathers, is_write_fault};

use crate::WriteTextError;
use byte_io::{Sink, write_all};

/// From how many bytes on what is gathered is written.
const PIECE_LEN: usize = 4096;

/// Writes what is gathered, if it is enough.
pub(crate) fn write_full<K: Sink>(sink: &mut K, gathered: &mut String) -> Result<(), WriteTextError>
    ensures taken { IsTrue K.told → Gathers [] (K.held sink.old) (string_bytes gathered.old) result (K.held sink.new) (string_bytes gathered.new) }
    ensures small { OnOk result (length (string_bytes gathered.new) < 4096) }
    ensures faults { Counts (is_write_fault result) (K.count sink.old) (K.count sink.new) }
{
    if gathered.len() >= PIECE_LEN {
        write_gathered(sink, gathered)?;
    }
    Ok(())
}

/// Writes what is gathered.
pub(crate) fn write_gathered<K: Sink>(
    sink: &mut K,
    gathered: &mut String,
) -> Result<(), WriteTextError>
    ensures taken { IsTrue K.told → Gathers [] (K.held sink.old) (string_bytes gathered.old) result (K.held sink.new) (string_bytes gathered.new) }
    ensures empty { OnOk result (string_bytes gathered.new ≡ []) }
    ensures faults { Counts (is_write_fault result) (K.count sink.old) (K.count sink.new) }
{
    write_all(sink, gathered.as_str().as_bytes())?;
    gathered.clear();
    Ok(())
}
