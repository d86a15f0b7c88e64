//! The words behind the name of a step.
ghost use Rattle.std.specs.Prelude.{ℕ, ℤ, List, IfOk, IfErr};
ghost use Rattle.std.specs.Int.{w32, w64};
ghost use Rattle.prefs_model.specs.declared.pref_value.PrefValue.{PrefValue};
ghost use Rattle.script_words.specs.Faults.{IsBadOrNoMemory};
ghost use Rattle.script_words.specs.StepWords.{AreKey, AreKeyAndAmount, AreKeyAndText, AreKeyAndValue};
ghost use Rattle.script_words.specs.Words.{texts_at};

use crate::WordsError;
use crate::texts::{key_of, text_of};
use prefs_model::{PrefKey, PrefText, PrefValue};
use prefs_text::{ValueKind, content_value, int_of, long_of};
use std::alloc::Global;

/// `KEY`
pub(crate) fn only_key(alloc: Global, words: &[&str]) -> Result<PrefKey, WordsError>
    ensures ok { IfOk result (AreKey (texts_at words.now)) }
    ensures err { IfErr result (IsBadOrNoMemory ((key : List ℕ) → ¬ AreKey (texts_at words.now) key)) }
{
    match words {
        [key] => key_of(alloc, key),
        _ => Err(WordsError::BadValue),
    }
}

/// `KEY KIND REST`
pub(crate) fn key_and_value(
    alloc: Global,
    words: &[&str],
) -> Result<(PrefKey, PrefValue), WordsError>
    ensures ok { IfOk result (λ pair. AreKeyAndValue (texts_at words.now) pair.0 pair.1) }
    ensures err { IfErr result (IsBadOrNoMemory ((key : List ℕ) (value : PrefValue) → ¬ AreKeyAndValue (texts_at words.now) key value)) }
{
    let [key, kind, content] = words else {
        return Err(WordsError::BadValue);
    };
    let Some(kind) = ValueKind::from_name(kind) else {
        return Err(WordsError::BadValue);
    };
    let key = key_of(alloc, key)?;
    let value = content_value(alloc, kind, content)?;
    Ok((key, value))
}

/// `KEY TEXT`
pub(crate) fn key_and_text(alloc: Global, words: &[&str]) -> Result<(PrefKey, PrefText), WordsError>
    ensures ok { IfOk result (λ pair. AreKeyAndText (texts_at words.now) pair.0 pair.1) }
    ensures err { IfErr result (IsBadOrNoMemory ((key text : List ℕ) → ¬ AreKeyAndText (texts_at words.now) key text)) }
{
    let [key, text] = words else {
        return Err(WordsError::BadValue);
    };
    let key = key_of(alloc, key)?;
    let text = text_of(alloc, text)?;
    Ok((key, text))
}

/// `KEY N`, where N is an Int.
pub(crate) fn key_and_int(alloc: Global, words: &[&str]) -> Result<(PrefKey, i32), WordsError>
    ensures ok { IfOk result (λ pair. AreKeyAndAmount w32 (texts_at words.now) pair.0 pair.1) }
    ensures err { IfErr result (IsBadOrNoMemory ((key : List ℕ) (amount : ℤ) → ¬ AreKeyAndAmount w32 (texts_at words.now) key amount)) }
{
    let [key, amount] = words else {
        return Err(WordsError::BadValue);
    };
    let Some(amount) = int_of(amount) else {
        return Err(WordsError::BadValue);
    };
    let key = key_of(alloc, key)?;
    Ok((key, amount))
}

/// `KEY N`, where N is a Long.
pub(crate) fn key_and_long(alloc: Global, words: &[&str]) -> Result<(PrefKey, i64), WordsError>
    ensures ok { IfOk result (λ pair. AreKeyAndAmount w64 (texts_at words.now) pair.0 pair.1) }
    ensures err { IfErr result (IsBadOrNoMemory ((key : List ℕ) (amount : ℤ) → ¬ AreKeyAndAmount w64 (texts_at words.now) key amount)) }
{
    let [key, amount] = words else {
        return Err(WordsError::BadValue);
    };
    let Some(amount) = long_of(amount) else {
        return Err(WordsError::BadValue);
    };
    let key = key_of(alloc, key)?;
    Ok((key, amount))
}
