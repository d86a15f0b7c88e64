//! One line of a script, in its place.
ghost use Rattle.std.specs.Prelude.{◌↔◌, ◌≤◌, IsTrue, length};
ghost use Rattle.script_words.specs.Words.{texts_at};
ghost use Rattle.script_lang.specs.Draft.{HasHomes};
ghost use Rattle.script_lang.specs.Reading.{ReadsLine, ReadsRow, ReadsWords, TestsLine};
ghost use Rattle.script_lang.specs.Rows.{keyword, IsSkipped};

use super::death_rows::read_die;
use super::fault_rows::{read_fault, read_fuse};
use super::name_rows::{read_client, read_node};
use super::run_rows::{read_call, read_go};
use super::start_rows::{read_file, read_history};
use crate::{Draft, Line, LineWord, ScriptFault};
use script_words::line_words;
use std::alloc::Global;

/// How many bytes a line has at the most.
const MAX_LINE_LEN: usize = 4_096;

/// How many lines a script has at the most.
const MAX_LINES: u64 = 100_000;

/// What the line with this number says, behind the lines that made the draft.
pub(crate) fn read_line(
    alloc: Global,
    draft: &Draft,
    number: u64,
    line: &[u8],
) -> Result<Line, ScriptFault>
    requires { HasHomes draft.now }
    ensures { ReadsLine draft.now number line.now result }
{
    let text = text_of(number, line)?;
    if is_skipped(text) {
        return Ok(Line::Nothing);
    }
    let words = line_words(alloc, text)?;
    read_words(alloc, draft, &words)
}

/// The line as a text, if it is none too many and not too long.
fn text_of(number: u64, line: &[u8]) -> Result<&str, ScriptFault>
    ensures { TestsLine number line.entry.now result }
{
    let Ok(text) = str::from_utf8(line) else {
        return Err(ScriptFault::NotUtf8);
    };
    if line.len() > MAX_LINE_LEN {
        return Err(ScriptFault::LineTooLong);
    }
    if number > MAX_LINES {
        return Err(ScriptFault::TooManyLines);
    }
    Ok(text)
}

/// Whether the line is empty, or a comment.
fn is_skipped(line: &str) -> bool
    ensures { IsTrue result ↔ IsSkipped line.now }
{
    match line.as_bytes() {
        [] => true,
        [first, ..] => *first == b'#',
    }
}

/// What a line with these words says.
fn read_words(alloc: Global, draft: &Draft, words: &[&str]) -> Result<Line, ScriptFault>
    requires some { 1 ≤ length words.now }
    requires homes { HasHomes draft.now }
    ensures { ReadsWords draft.now (texts_at words.now) result }
{
    let first = words[0];
    let behind = &words[1..];
    match LineWord::from_name(first) {
        Some(word) => read_row(alloc, draft, word, behind),
        None => read_call(alloc, draft, first, behind),
    }
}

/// What a line says that begins with this word.
#[tactic(auto, using(crate::proofs::RowFaults::unknown_word_first))]
fn read_row(
    alloc: Global,
    draft: &Draft,
    word: LineWord,
    behind: &[&str],
) -> Result<Line, ScriptFault>
    requires { HasHomes draft.now }
    ensures { ReadsRow draft.now (keyword word (texts_at behind.now)) result }
{
    match word {
        LineWord::File => read_file(alloc, draft, behind),
        LineWord::History => read_history(draft, behind),
        LineWord::Node => read_node(alloc, draft, behind),
        LineWord::Client => read_client(alloc, draft, behind),
        LineWord::Fault => read_fault(draft, behind),
        LineWord::Fuse => read_fuse(draft, behind),
        LineWord::Die => read_die(draft, behind),
        LineWord::Go => read_go(draft, behind),
        LineWord::Handler | LineWord::Legacy | LineWord::Migrate | LineWord::Stop => {
            Err(ScriptFault::UnknownWord)
        }
    }
}
