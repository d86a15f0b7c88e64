ghost use Rattle.std.specs.Prelude.{◌≡◌, ◌++◌, string_bytes, OnOk, IfOk};
ghost use Rattle.prefs_text.specs.AnswerText.{answer_text, asker_text, given_text, numbered, words_of, AnswerHasNames};
ghost use Rattle.prefs_text.specs.AnswerView.{answer_seen, line_seen};

use crate::callers::push_call;
use crate::maps::push_map;
use crate::numbers::{push_number, push_numbered};
use crate::{Answer, AnswerLine, Names};
use prefs_model::{PrefMap, PrefText};
use std::alloc::{AllocError, Global};
use store_traits::{CallId, Given};

/// The text of the answer, with the call that it is of.
pub fn answer_text(alloc: Global, names: &Names, line: &AnswerLine) -> Result<PrefText, AllocError>
    requires { AnswerHasNames names.now (line_seen line.now) }
    ensures { IfOk result (λ text. text ≡ answer_text names.now (line_seen line.now)) }
{
    let mut text = String::new(alloc);
    push_answer(&mut text, names, line)?;
    Ok(PrefText::new(text))
}

/// Appends the text of the answer, with the call that it is of.
#[tactic(auto, unfolding(crate::specs::AnswerText::answer_text))]
pub fn push_answer(out: &mut String, names: &Names, line: &AnswerLine) -> Result<(), AllocError>
    requires { AnswerHasNames names.now (line_seen line.now) }
    ensures { OnOk result (string_bytes out.new ≡ string_bytes out.old ++ answer_text names.now (line_seen line.now)) }
{
    push_call(out, names, line.call)?;
    if let Some(poster) = line.poster {
        out.push_str(" for ")?;
        push_call(out, names, poster)?;
    }
    out.push_str(" ")?;
    push_words(out, &line.answer)
}

// Appends the answer alone.
#[tactic(auto, unfolding(crate::specs::AnswerText::words_of))]
fn push_words(out: &mut String, answer: &Answer) -> Result<(), AllocError>
    ensures { OnOk result (string_bytes out.new ≡ string_bytes out.old ++ words_of (answer_seen answer.now)) }
{
    match answer {
        Answer::Updated(edition) => push_numbered(out, "updated", *edition),
        Answer::Read(given) => push_given(out, "read", given),
        Answer::Flow(given) => push_given(out, "flow", given),
        Answer::Unchanged(edition) => push_numbered(out, "unchanged", *edition),
        Answer::Refused(code, edition) => push_two(out, "refused", u64::from(*code), *edition),
        Answer::Corrupt => out.push_str("corrupt"),
        Answer::FileTooLong(len) => push_numbered(out, "filetoolong", *len),
        Answer::ValueTooLong(len) => push_numbered(out, "valuetoolong", *len),
        Answer::HistoryFull(entries, weight) => push_two(out, "historyfull", *entries, *weight),
        Answer::StorageFault(at) => push_numbered(out, "storagefault", *at),
        Answer::NotDurable(at) => push_numbered(out, "notdurable", *at),
        Answer::LegacyFault(at) => push_numbered(out, "legacyfault", *at),
        Answer::Died(at) => push_numbered(out, "died", *at),
        Answer::Posted => out.push_str("posted"),
        Answer::Full => out.push_str("full"),
        Answer::Restarted(at) => push_numbered(out, "restarted", *at),
        Answer::NotDead => out.push_str("notdead"),
        Answer::Cut => out.push_str("cut"),
    }
}

// Appends the word, the edition and the map of what was given.
fn push_given(out: &mut String, word: &str, given: &Given<PrefMap>) -> Result<(), AllocError>
    ensures { OnOk result (string_bytes out.new ≡ string_bytes out.old ++ given_text word.now given.now.edition given.now.value.value) }
{
    push_numbered(out, word, given.edition)?;
    out.push_str(" ")?;
    push_map(out, &given.value)
}

// Appends the word and two numbers.
fn push_two(out: &mut String, word: &str, first: u64, second: u64) -> Result<(), AllocError>
    ensures { OnOk result (string_bytes out.new ≡ string_bytes out.old ++ numbered (numbered word.now first) second) }
{
    push_numbered(out, word, first)?;
    out.push_str(" ")?;
    push_number(out, second)
}
