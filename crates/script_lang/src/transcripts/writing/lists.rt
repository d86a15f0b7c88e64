ghost use Rattle.std.specs.Prelude.{◌≡◌, All, IsTrue, map, string_bytes};
ghost use Rattle.store_traits.specs.Faults.{Counts};
ghost use Rattle.hist_journal.specs.View.{entry_seen};
ghost use Rattle.prefs_text.specs.AnswerText.{AnswerHasNames, answer_text};
ghost use Rattle.prefs_text.specs.AnswerView.{line_seen};
ghost use Rattle.prefs_text.specs.EntryText.{EntryHasNames, entry_text};
ghost use Rattle.script_lang.specs.Gathering.{Gathers, is_write_fault};
ghost use Rattle.script_lang.specs.TranscriptText.{entry_lines, line, lines_text};

use super::gathered::write_full;
use crate::WriteTextError;
use byte_io::Sink;
use hist_journal::{Entry, Journal};
use prefs_edit::Edit;
use prefs_model::PrefMap;
use prefs_text::{AnswerLine, Names, push_answer, push_entry};

/// Writes the lines of the answers.
pub(crate) fn write_answers<K: Sink>(
    sink: &mut K,
    gathered: &mut String,
    names: &Names,
    answers: &[AnswerLine],
) -> Result<(), WriteTextError>
    requires { All (AnswerHasNames names.now) (map line_seen answers.now) }
    ensures taken { IsTrue K.told → Gathers (lines_text (map (answer_text names.now) (map line_seen answers.now))) (K.held sink.old) (string_bytes gathered.old) result (K.held sink.new) (string_bytes gathered.new) }
    ensures faults { Counts (is_write_fault result) (K.count sink.old) (K.count sink.new) }
{
    for answer in answers {
        write_answer(sink, gathered, names, answer)?;
    }
    Ok(())
}

fn write_answer<K: Sink>(
    sink: &mut K,
    gathered: &mut String,
    names: &Names,
    answer: &AnswerLine,
) -> Result<(), WriteTextError>
    requires { AnswerHasNames names.now (line_seen answer.now) }
    ensures taken { IsTrue K.told → Gathers (line (answer_text names.now (line_seen answer.now))) (K.held sink.old) (string_bytes gathered.old) result (K.held sink.new) (string_bytes gathered.new) }
    ensures faults { Counts (is_write_fault result) (K.count sink.old) (K.count sink.new) }
{
    push_answer(gathered, names, answer)?;
    gathered.push_str("\n")?;
    write_full(sink, gathered)
}

/// Writes the lines of the journal's entries.
pub(crate) fn write_entries<K: Sink>(
    sink: &mut K,
    gathered: &mut String,
    names: &Names,
    journal: &Journal<PrefMap, Edit>,
) -> Result<(), WriteTextError>
    requires { All (EntryHasNames names.now) journal.now.list }
    ensures taken { IsTrue K.told → Gathers (lines_text (entry_lines names.now journal.now.list)) (K.held sink.old) (string_bytes gathered.old) result (K.held sink.new) (string_bytes gathered.new) }
    ensures faults { Counts (is_write_fault result) (K.count sink.old) (K.count sink.new) }
{
    for index in 0..journal.len() {
        let Some(entry) = journal.entry(index + 1) else {
            unreachable!()
        };
        write_entry(sink, gathered, names, index + 1, entry)?;
    }
    Ok(())
}

fn write_entry<K: Sink>(
    sink: &mut K,
    gathered: &mut String,
    names: &Names,
    at: u64,
    entry: &Entry<PrefMap, Edit>,
) -> Result<(), WriteTextError>
    requires { EntryHasNames names.now (entry_seen entry.now) }
    ensures taken { IsTrue K.told → Gathers (line (entry_text names.now at (entry_seen entry.now))) (K.held sink.old) (string_bytes gathered.old) result (K.held sink.new) (string_bytes gathered.new) }
    ensures faults { Counts (is_write_fault result) (K.count sink.old) (K.count sink.new) }
{
    push_entry(gathered, names, at, entry)?;
    gathered.push_str("\n")?;
    write_full(sink, gathered)
}
