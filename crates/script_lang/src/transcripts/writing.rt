ghost use Rattle.std.specs.Prelude.{IsTrue};
ghost use Rattle.store_traits.specs.Faults.{Counts};
ghost use Rattle.byte_io.specs.Sink.{WritesAll};
ghost use Rattle.script_lang.specs.Gathering.{is_write_fault};
ghost use Rattle.script_lang.specs.TranscriptText.{text, HasNames};

mod gathered;
mod lines;
mod lists;
mod sessions;

use crate::{Transcript, WriteTextError};
use byte_io::Sink;
use gathered::write_gathered;
use sessions::write_sessions;
use std::alloc::Global;

/// Writes the text of the transcript, many lines at once. Where it stops, the sink took a front of the text.
pub fn write_transcript<K: Sink>(
    alloc: Global,
    sink: &mut K,
    transcript: &Transcript,
) -> Result<(), WriteTextError>
    requires { HasNames transcript.now }
    ensures taken { IsTrue K.told → WritesAll (K.held sink.old) (text transcript.now) result (K.held sink.new) }
    ensures faults { Counts (is_write_fault result) (K.count sink.old) (K.count sink.new) }
{
    let mut gathered = String::new(alloc);
    let sessions = transcript.sessions.sessions();
    write_sessions(sink, &mut gathered, &transcript.names, sessions)?;
    write_gathered(sink, &mut gathered)
}
