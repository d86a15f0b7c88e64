//! The lines that clients follow.
ghost use Rattle.std.specs.Prelude.{◌≢◌};
ghost use Rattle.script_words.specs.Words.{texts_at};
ghost use Rattle.script_lang.specs.declared.parsing.line_word.LineWord.{LineWord};
ghost use Rattle.script_lang.specs.LineWord.{line_word};
ghost use Rattle.script_lang.specs.Reading.{ReadsRow};
ghost use Rattle.script_lang.specs.Rows.{keyword, call};

use super::call_words::call_of;
use crate::{Act, Draft, Line, LineWord, RunLine, ScriptFault};
use script_words::{is_name, number_of};
use std::alloc::Global;
use store_traits::ClientId;

/// How many steps one `go` line has at the most.
pub(crate) const MAX_STEPS: u64 = 1_000;

/// `go CLIENT N`
pub(crate) fn read_go(draft: &Draft, behind: &[&str]) -> Result<Line, ScriptFault>
    ensures { ReadsRow draft.now (keyword LineWord.Go (texts_at behind.now)) result }
{
    let [name, word] = behind else {
        return Err(ScriptFault::BadValue);
    };
    let Some(steps) = number_of(word, 0, MAX_STEPS) else {
        return Err(ScriptFault::BadValue);
    };
    let Some(client) = draft.clients.find(name) else {
        return Err(ScriptFault::UnknownName);
    };
    Ok(Line::Run(RunLine {
        client: ClientId(client),
        act: Act::Go(steps as u32),
    }))
}

/// A client, and what it calls for.
pub(crate) fn read_call(
    alloc: Global,
    draft: &Draft,
    first: &str,
    behind: &[&str],
) -> Result<Line, ScriptFault>
    requires { (word : LineWord) → first.now ≢ line_word word }
    ensures { ReadsRow draft.now (call first.now (texts_at behind.now)) result }
{
    if !is_name(first) {
        return Err(ScriptFault::UnknownWord);
    }
    let act = call_of(alloc, draft, behind)?;
    let Some(client) = draft.clients.find(first) else {
        return Err(ScriptFault::UnknownName);
    };
    Ok(Line::Run(RunLine {
        client: ClientId(client),
        act,
    }))
}
