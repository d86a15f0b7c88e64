ghost use Rattle.std.specs.Prelude.{All, IsTrue, map, string_bytes};
ghost use Rattle.store_traits.specs.Faults.{Counts};
ghost use Rattle.script_lang.specs.Gathering.{Gathers, is_write_fault};
ghost use Rattle.script_lang.specs.TranscriptText.{end_lines, file_text, line, lines_text, session_text, sessions_text, SessionHasNames};
ghost use Rattle.script_lang.specs.TranscriptView.{session_seen};

use super::gathered::write_full;
use super::lines::{push_file, push_head};
use super::lists::{write_answers, write_entries};
use crate::{FileSeen, Session, WriteTextError};
use byte_io::Sink;
use prefs_text::Names;

/// Writes the texts of the sessions, numbered from 1.
pub(crate) fn write_sessions<K: Sink>(
    sink: &mut K,
    gathered: &mut String,
    names: &Names,
    sessions: &[Session],
) -> Result<(), WriteTextError>
    requires { All (SessionHasNames names.now) (map session_seen sessions.now) }
    ensures taken { IsTrue K.told → Gathers (sessions_text names.now (map session_seen sessions.now)) (K.held sink.old) (string_bytes gathered.old) result (K.held sink.new) (string_bytes gathered.new) }
    ensures faults { Counts (is_write_fault result) (K.count sink.old) (K.count sink.new) }
{
    for (index, session) in sessions.iter().enumerate() {
        write_session(sink, gathered, names, index as u64 + 1, session)?;
    }
    Ok(())
}

fn write_session<K: Sink>(
    sink: &mut K,
    gathered: &mut String,
    names: &Names,
    number: u64,
    session: &Session,
) -> Result<(), WriteTextError>
    requires { SessionHasNames names.now (session_seen session.now) }
    ensures taken { IsTrue K.told → Gathers (session_text names.now number (session_seen session.now)) (K.held sink.old) (string_bytes gathered.old) result (K.held sink.new) (string_bytes gathered.new) }
    ensures faults { Counts (is_write_fault result) (K.count sink.old) (K.count sink.new) }
{
    push_head(gathered, number, &session.base)?;
    write_answers(sink, gathered, names, session.answers.lines())?;
    write_end(sink, gathered, names, session)
}

// Writes the lines of the entries, and behind them that of the file.
fn write_end<K: Sink>(
    sink: &mut K,
    gathered: &mut String,
    names: &Names,
    session: &Session,
) -> Result<(), WriteTextError>
    requires { SessionHasNames names.now (session_seen session.now) }
    ensures taken { IsTrue K.told → Gathers (lines_text (end_lines names.now (session_seen session.now))) (K.held sink.old) (string_bytes gathered.old) result (K.held sink.new) (string_bytes gathered.new) }
    ensures faults { Counts (is_write_fault result) (K.count sink.old) (K.count sink.new) }
{
    write_entries(sink, gathered, names, &session.journal)?;
    write_file(sink, gathered, &session.file)
}

fn write_file<K: Sink>(
    sink: &mut K,
    gathered: &mut String,
    file: &FileSeen,
) -> Result<(), WriteTextError>
    ensures taken { IsTrue K.told → Gathers (line (file_text file.now)) (K.held sink.old) (string_bytes gathered.old) result (K.held sink.new) (string_bytes gathered.new) }
    ensures faults { Counts (is_write_fault result) (K.count sink.old) (K.count sink.new) }
{
    push_file(gathered, file)?;
    gathered.push_str("\n")?;
    write_full(sink, gathered)
}
