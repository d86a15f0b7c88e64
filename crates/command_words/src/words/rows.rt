//! How the words that are given to a command fit its row.
ghost use Rattle.std.specs.Prelude.{◌≡◌, ℕ, List, IfOk, IfSome, IfNone};
ghost use Rattle.prefs_model.specs.Texts.{set_of};
ghost use Rattle.prefs_model.specs.declared.pref_value.PrefValue.{PrefValue};
ghost use Rattle.command_words.specs.Command.{IsKeyRow, IsKeyWord, IsRow, IsSetRow, IsValueRow, name_of};
ghost use Rattle.command_words.specs.Line.{texts_at};

use crate::command::Command;
use prefs_model::{Entries, PrefKey, PrefText, PrefValue, TextSet};
use prefs_text::{ValueKind, plain_value};
use std::alloc::{AllocError, Global};

/// What the words ask for of the command with this name.
pub(crate) fn row(alloc: Global, name: &str, words: &[&str]) -> Result<Option<Command>, AllocError>
    ensures some { IfOk result (λ r. IfSome r (λ command. (name.now ≡ name_of command) × IsRow (texts_at words.now) command)) }
    ensures none { IfOk result (λ r. IfNone r ((command : Command) → name.now ≡ name_of command → ¬ IsRow (texts_at words.now) command)) }
{
    match name {
        "set" => Ok(set_row(alloc, words)?.map(|(key, value)| Command::Set { key, value })),
        "get" => Ok(key_row(alloc, words)?.map(|key| Command::Get { key })),
        "remove" => Ok(key_row(alloc, words)?.map(|key| Command::Remove { key })),
        "show" if words.is_empty() => Ok(Some(Command::Show)),
        "replay" if words.is_empty() => Ok(Some(Command::Replay)),
        _ => Ok(None),
    }
}

/// `KEY KIND [VALUE]...`
fn set_row(alloc: Global, words: &[&str]) -> Result<Option<(PrefKey, PrefValue)>, AllocError>
    ensures some { IfOk result (λ r. IfSome r (λ pair. IsSetRow (texts_at words.now) pair.0 pair.1)) }
    ensures none { IfOk result (λ r. IfNone r ((key : List ℕ) (value : PrefValue) → ¬ IsSetRow (texts_at words.now) key value)) }
{
    let [key, kind, values @ ..] = words else {
        return Ok(None);
    };
    let Some(kind) = ValueKind::from_name(kind) else {
        return Ok(None);
    };
    let Some(key) = key_of(alloc, key)? else {
        return Ok(None);
    };
    let value = value_of(alloc, kind, values)?;
    Ok(value.map(|value| (key, value)))
}

/// `KEY`
fn key_row(alloc: Global, words: &[&str]) -> Result<Option<PrefKey>, AllocError>
    ensures some { IfOk result (λ r. IfSome r (IsKeyRow (texts_at words.now))) }
    ensures none { IfOk result (λ r. IfNone r ((key : List ℕ) → ¬ IsKeyRow (texts_at words.now) key)) }
{
    match words {
        [word] => key_of(alloc, word),
        _ => Ok(None),
    }
}

/// The key that the word is, if it is no longer than keys are.
fn key_of(alloc: Global, word: &str) -> Result<Option<PrefKey>, AllocError>
    ensures some { IfOk result (λ r. IfSome r (λ key. (key ≡ word.now) × IsKeyWord word.now)) }
    ensures none { IfOk result (λ r. IfNone r (¬ IsKeyWord word.now)) }
{
    let text = String::from_str(alloc, word)?;
    Ok(PrefKey::new(text).ok())
}

/// The value of the kind that the words are: exactly one, but for a set.
fn value_of(alloc: Global, kind: ValueKind, words: &[&str]) -> Result<Option<PrefValue>, AllocError>
    ensures some { IfOk result (λ r. IfSome r (IsValueRow kind (texts_at words.now))) }
    ensures none { IfOk result (λ r. IfNone r ((value : PrefValue) → ¬ IsValueRow kind (texts_at words.now) value)) }
{
    match (kind, words) {
        (ValueKind::Texts, _) => Ok(Some(PrefValue::Texts(set_of_words(alloc, words)?))),
        (ValueKind::Text, [word]) => {
            let text = String::from_str(alloc, word)?;
            Ok(Some(PrefValue::Text(PrefText::new(text))))
        }
        (_, [word]) => Ok(plain_value(kind, word)),
        _ => Ok(None),
    }
}

/// The set of the words, by one sort.
fn set_of_words(alloc: Global, words: &[&str]) -> Result<TextSet, AllocError>
    ensures { IfOk result (λ set. set ≡ set_of (texts_at words.now)) }
{
    let mut entries = Entries::new(alloc);
    for word in words {
        entries.push(PrefText::new(String::from_str(alloc, word)?))?;
    }
    TextSet::from_entries(entries)
}
