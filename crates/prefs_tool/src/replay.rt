ghost use Rattle.std.specs.Prelude.{◌≡◌};
ghost use Rattle.store_traits.specs.Faults.{Counts};
ghost use Rattle.byte_io.specs.Seen.{sink_seen, source_seen};
ghost use Rattle.script_lang.specs.TranscriptText.{HasNames, text};
ghost use Rattle.prefs_tool.specs.Replaying.{EndsReplay, ReadsBytes, ReadsScript, is_read_fault, refusal_of};
ghost use Rattle.prefs_tool.specs.Writing.{WritesText};

use crate::tool_error::ToolError;
use byte_io::{ReadAllError, Sink, Source, read_all};
use replay_run::replay;
use script_lang::{
    Mode, Script, ScriptError, ScriptFault, Transcript, WriteTextError, parse_script,
    write_transcript,
};
use std::alloc::Global;

/// How many bytes a script may have.
const SCRIPT_LIMIT: u64 = 67_108_864;

/// Prints the transcript of the script that the source gives.
pub(crate) fn print_run<S: Source, K: Sink>(
    alloc: Global,
    source: &mut S,
    sink: &mut K,
) -> Result<(), ToolError>
    ensures { EndsReplay (source_seen S.Source source.old) (sink_seen K.Sink sink.old) result (source_seen S.Source source.new) (sink_seen K.Sink sink.new) }
{
    let script = read_script(alloc, source)?;
    let transcript = replay(alloc, &script)?;
    write_text(alloc, sink, &transcript)
}

/// The script that the source gives, which is read to its end.
fn read_script<S: Source>(alloc: Global, source: &mut S) -> Result<Script, ToolError>
    ensures script { ReadsScript (source_seen S.Source source.old) result (source_seen S.Source source.new) }
    ensures faults { Counts (is_read_fault result) (S.count source.old) (S.count source.new) }
{
    match read_all(alloc, source, SCRIPT_LIMIT) {
        Ok(bytes) => script_of(alloc, bytes.as_slice()),
        Err(ReadAllError::ReadFault) => Err(ToolError::ReadFault),
        Err(ReadAllError::TooLong { .. }) => Err(ToolError::ScriptTooLong),
        Err(ReadAllError::NoMemory) => Err(ToolError::NoMemory),
    }
}

/// The script that the bytes are.
fn script_of(alloc: Global, bytes: &[u8]) -> Result<Script, ToolError>
    ensures { ReadsBytes bytes.now result }
{
    match parse_script(alloc, bytes, Mode::Replay) {
        Ok(script) => Ok(script),
        Err(error) => Err(refusal(error)),
    }
}

/// How the command tells why bytes are no script.
fn refusal(error: ScriptError) -> ToolError
    ensures { result ≡ refusal_of error.line error.fault }
{
    match error.fault {
        ScriptFault::NoMemory => ToolError::NoMemory,
        fault => ToolError::Script {
            line: error.line,
            fault,
        },
    }
}

/// Writes the text of the transcript.
fn write_text<K: Sink>(
    alloc: Global,
    sink: &mut K,
    transcript: &Transcript,
) -> Result<(), ToolError>
    requires { HasNames transcript.now }
    ensures { WritesText (text transcript.now) (sink_seen K.Sink sink.old) result (sink_seen K.Sink sink.new) }
{
    match write_transcript(alloc, sink, transcript) {
        Ok(()) => Ok(()),
        Err(WriteTextError::WriteFault) => Err(ToolError::WriteFault),
        Err(WriteTextError::NoMemory) => Err(ToolError::NoMemory),
    }
}
