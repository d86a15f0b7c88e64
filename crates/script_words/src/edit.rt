ghost use Rattle.std.specs.Prelude.{List, IfOk, IfErr};
ghost use Rattle.std.specs.List.{AllZip};
ghost use Rattle.prefs_edit.specs.declared.edit_step.EditStep.{EditStep};
ghost use Rattle.script_words.specs.EditWords.{AreEditWords, AreSeveral, HasUnknown, IsEditFault, IsOnlyStep, SomeHasUnknownWord, SpellSteps};
ghost use Rattle.script_words.specs.Faults.{IsBadOrNoMemory, IsFault};
ghost use Rattle.script_words.specs.Parts.{parts_at};
ghost use Rattle.script_words.specs.StepWords.{AreStepWords};
ghost use Rattle.script_words.specs.Unknown.{HasUnknownWord};
ghost use Rattle.script_words.specs.Words.{texts_at};

use crate::WordsError;
use crate::parts::parts_of;
use crate::step::step_of;
use crate::unknown::{has_unknown_word, some_has_unknown_word};
use prefs_edit::{Edit, EditStep};
use std::alloc::{AllocError, Global};

/// The edit that the words are.
pub fn edit_of(alloc: Global, words: &[&str]) -> Result<Edit, WordsError>
    ensures ok { IfOk result (AreEditWords (texts_at words.now)) }
    ensures err { IfErr result (IsEditFault (texts_at words.now)) }
{
    let steps = steps_of(alloc, words)?;
    Ok(Edit::new(steps)?)
}

/// The steps that the words are, however many.
fn steps_of(alloc: Global, words: &[&str]) -> Result<Vec<EditStep>, WordsError>
    ensures ok { IfOk result (λ steps. SpellSteps (texts_at words.now) steps.items) }
    ensures err { IfErr result (IsFault (HasUnknown (texts_at words.now))
        ((steps : List EditStep) → ¬ SpellSteps (texts_at words.now) steps)) }
{
    match words {
        [name, behind @ ..] if *name == "many" => many_steps(alloc, behind),
        _ => only_step(alloc, words),
    }
}

/// The one step that the words are.
fn only_step(alloc: Global, words: &[&str]) -> Result<Vec<EditStep>, WordsError>
    ensures ok { IfOk result (λ steps. IsOnlyStep (texts_at words.now) steps.items) }
    ensures err { IfErr result (IsFault (HasUnknownWord (texts_at words.now))
        ((steps : List EditStep) → ¬ IsOnlyStep (texts_at words.now) steps)) }
{
    if has_unknown_word(words) {
        return Err(WordsError::UnknownWord);
    }
    let mut steps = Vec::new(alloc);
    steps
        .push(step_of(alloc, words)?)
        .map_err(AllocError::from)?;
    Ok(steps)
}

/// The steps that the words behind `many` are.
fn many_steps(alloc: Global, words: &[&str]) -> Result<Vec<EditStep>, WordsError>
    ensures ok { IfOk result (λ steps. AreSeveral (texts_at words.now) steps.items) }
    ensures err { IfErr result (IsFault (SomeHasUnknownWord (texts_at words.now))
        ((steps : List EditStep) → ¬ AreSeveral (texts_at words.now) steps)) }
{
    let parts = parts_of(alloc, words)?;
    if some_has_unknown_word(&parts) {
        return Err(WordsError::UnknownWord);
    }
    if parts.len() < 2 {
        return Err(WordsError::BadValue);
    }
    steps_of_parts(alloc, &parts)
}

/// The steps that the parts are, one each.
fn steps_of_parts(alloc: Global, parts: &[&[&str]]) -> Result<Vec<EditStep>, WordsError>
    ensures ok { IfOk result (λ steps. AllZip AreStepWords (parts_at parts.now) steps.items) }
    ensures err { IfErr result (IsBadOrNoMemory ((steps : List EditStep) → ¬ AllZip AreStepWords (parts_at parts.now) steps)) }
{
    let mut steps = Vec::new(alloc);
    for part in parts {
        steps.push(step_of(alloc, part)?).map_err(AllocError::from)?;
    }
    Ok(steps)
}
