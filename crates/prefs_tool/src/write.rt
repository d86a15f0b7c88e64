ghost use Rattle.std.specs.Prelude.{◌≡◌, ◌++◌, codes, decimal};
ghost use Rattle.byte_io.specs.Seen.{sink_seen};
ghost use Rattle.prefs_tool.specs.Status.{fault_name, line, line_of};
ghost use Rattle.prefs_tool.specs.Writing.{WritesPiece};

use crate::tool_error::ToolError;
use byte_io::{Sink, write_all};
use itoa::Buffer;
use script_lang::ScriptFault;

/// Writes the whole piece.
pub(crate) fn write<K: Sink>(sink: &mut K, piece: &[u8]) -> Result<(), ToolError>
    ensures { WritesPiece piece.now (sink_seen K.Sink sink.old) result (sink_seen K.Sink sink.new) }
{
    match write_all(sink, piece) {
        Ok(()) => Ok(()),
        Err(_) => Err(ToolError::WriteFault),
    }
}

/// Writes the line by which the error is told, if there is one. It takes no memory.
pub(crate) fn write_line<K: Sink>(sink: &mut K, error: ToolError) -> Result<(), ToolError>
    ensures { WritesPiece (line_of error) (sink_seen K.Sink sink.old) result (sink_seen K.Sink sink.new) }
{
    match error {
        ToolError::Words => write(sink, b"error: words\n"),
        ToolError::Script { line, fault } => {
            write_number(sink, b"error: line ", line, fault_end(fault))
        }
        ToolError::ScriptTooLong => write(sink, b"error: script too long\n"),
        ToolError::Storage => write(sink, b"error: storage\n"),
        ToolError::Corrupt => write(sink, b"error: corrupt\n"),
        ToolError::TooLong { len } => write_number(sink, b"error: too long ", len, b"\n"),
        ToolError::EditTooLong => write(sink, b"error: refused 4\n"),
        ToolError::ValueTooLong { len } => {
            write_number(sink, b"error: value too long ", len, b"\n")
        }
        ToolError::ReadFault => write(sink, b"error: read\n"),
        ToolError::NoKey => write(sink, b"error: no key\n"),
        ToolError::WriteFault | ToolError::NoMemory => write(sink, b""),
    }
}

/// Writes a number between two pieces.
fn write_number<K: Sink>(
    sink: &mut K,
    front: &[u8],
    number: u64,
    end: &[u8],
) -> Result<(), ToolError>
    ensures { WritesPiece ((front.now ++ decimal number) ++ end.now) (sink_seen K.Sink sink.old) result (sink_seen K.Sink sink.new) }
{
    write(sink, front)?;
    write(sink, Buffer::new().format(number).as_bytes())?;
    write(sink, end)
}

/// The end of the line that tells a fault: the variant's name in lower case.
fn fault_end(fault: ScriptFault) -> &'static [u8]
    ensures { result.now ≡ line (codes " " ++ fault_name fault) }
{
    match fault {
        ScriptFault::NotUtf8 => b" notutf8\n",
        ScriptFault::LineTooLong => b" linetoolong\n",
        ScriptFault::TooManyLines => b" toomanylines\n",
        ScriptFault::UnknownWord => b" unknownword\n",
        ScriptFault::BadValue => b" badvalue\n",
        ScriptFault::UnknownName => b" unknownname\n",
        ScriptFault::NameTaken => b" nametaken\n",
        ScriptFault::TooManyNames => b" toomanynames\n",
        ScriptFault::WrongPlace => b" wrongplace\n",
        ScriptFault::NoMemory => b" nomemory\n",
    }
}
