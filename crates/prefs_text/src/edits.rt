ghost use Rattle.std.specs.Prelude.{◌≡◌, ◌++◌, string_bytes, OnOk, IfOk};
ghost use Rattle.prefs_text.specs.EditText.{edit_text, step_text, word_and_key};

use crate::joined::{Printed, push_joined};
use crate::quoted::push_quoted;
use crate::values::push_value;
use itoa::Buffer;
use prefs_edit::{Edit, EditStep};
use prefs_model::{PrefKey, PrefText};
use std::alloc::{AllocError, Global};

/// The text of the edit: its one step, or `many` and its steps, joined by semicolons.
pub fn edit_text(alloc: Global, edit: &Edit) -> Result<PrefText, AllocError>
    ensures { IfOk result (λ text. text ≡ edit_text edit.now) }
{
    let mut text = String::new(alloc);
    push_edit(&mut text, edit)?;
    Ok(PrefText::new(text))
}

/// Appends the text of the edit.
pub(crate) fn push_edit(out: &mut String, edit: &Edit) -> Result<(), AllocError>
    ensures { OnOk result (string_bytes out.new ≡ string_bytes out.old ++ edit_text edit.now) }
{
    match edit.steps() {
        [step] => push_step(out, step),
        steps => {
            out.push_str("many ")?;
            push_joined(out, steps, " ; ")
        }
    }
}

#[tactic(auto, unfolding(crate::specs::EditText::step_text))]
fn push_step(out: &mut String, step: &EditStep) -> Result<(), AllocError>
    ensures { OnOk result (string_bytes out.new ≡ string_bytes out.old ++ step_text step.now) }
{
    match step {
        EditStep::Set { key, value } => {
            push_word(out, "set", key)?;
            out.push_str(" ")?;
            push_value(out, value)
        }
        EditStep::Remove { key } => push_word(out, "remove", key),
        EditStep::Clear => out.push_str("clear"),
        EditStep::AddInt { key, amount } => {
            push_word(out, "addint", key)?;
            out.push_str(" ")?;
            out.push_str(Buffer::new().format(*amount))
        }
        EditStep::AddLong { key, amount } => {
            push_word(out, "addlong", key)?;
            out.push_str(" ")?;
            out.push_str(Buffer::new().format(*amount))
        }
        EditStep::Toggle { key } => push_word(out, "toggle", key),
        EditStep::InsertText { key, text } => {
            push_word(out, "insert", key)?;
            out.push_str(" ")?;
            push_quoted(out, text.as_str())
        }
        EditStep::RemoveText { key, text } => {
            push_word(out, "erase", key)?;
            out.push_str(" ")?;
            push_quoted(out, text.as_str())
        }
        EditStep::Require { key, value } => {
            push_word(out, "require", key)?;
            out.push_str(" ")?;
            push_value(out, value)
        }
    }
}

// Appends the word, a space, and the quoted key.
fn push_word(out: &mut String, word: &str, key: &PrefKey) -> Result<(), AllocError>
    ensures { OnOk result (string_bytes out.new ≡ string_bytes out.old ++ word_and_key word.now key.now) }
{
    out.push_str(word)?;
    out.push_str(" ")?;
    push_quoted(out, key.as_str())
}

impl Printed for EditStep {
    ghost text = { step_text };

    fn push_to(&self, out: &mut String) -> Result<(), AllocError> {
        push_step(out, self)
    }
}
