ghost use Rattle.std.specs.Prelude.{ℕ, List, IfOk, IfErr};
ghost use Rattle.prefs_edit.specs.declared.edit_step.EditStep.{EditStep};
ghost use Rattle.script_words.specs.Faults.{IsBadOrNoMemory};
ghost use Rattle.script_words.specs.StepWords.{AreStepWords};
ghost use Rattle.script_words.specs.Words.{texts_at};

use crate::rows::{key_and_int, key_and_long, key_and_text, key_and_value, only_key};
use crate::{StepKind, WordsError};
use prefs_edit::EditStep;
use std::alloc::Global;

/// The step that the words are. It never answers `UnknownWord`.
pub(crate) fn step_of(alloc: Global, words: &[&str]) -> Result<EditStep, WordsError>
    ensures ok { IfOk result (AreStepWords (texts_at words.now)) }
    ensures err { IfErr result (IsBadOrNoMemory ((step : EditStep) → ¬ AreStepWords (texts_at words.now) step)) }
{
    let [name, behind @ ..] = words else {
        return Err(WordsError::BadValue);
    };
    let Some(kind) = StepKind::from_name(name) else {
        return Err(WordsError::BadValue);
    };
    match kind {
        StepKind::Set => {
            let (key, value) = key_and_value(alloc, behind)?;
            Ok(EditStep::Set { key, value })
        }
        StepKind::Remove => {
            let key = only_key(alloc, behind)?;
            Ok(EditStep::Remove { key })
        }
        StepKind::Clear if behind.is_empty() => Ok(EditStep::Clear),
        StepKind::Clear => Err(WordsError::BadValue),
        StepKind::AddInt => {
            let (key, amount) = key_and_int(alloc, behind)?;
            Ok(EditStep::AddInt { key, amount })
        }
        StepKind::AddLong => {
            let (key, amount) = key_and_long(alloc, behind)?;
            Ok(EditStep::AddLong { key, amount })
        }
        StepKind::Toggle => {
            let key = only_key(alloc, behind)?;
            Ok(EditStep::Toggle { key })
        }
        StepKind::InsertText => {
            let (key, text) = key_and_text(alloc, behind)?;
            Ok(EditStep::InsertText { key, text })
        }
        StepKind::RemoveText => {
            let (key, text) = key_and_text(alloc, behind)?;
            Ok(EditStep::RemoveText { key, text })
        }
        StepKind::Require => {
            let (key, value) = key_and_value(alloc, behind)?;
            Ok(EditStep::Require { key, value })
        }
    }
}
