ghost use Rattle.std.specs.Prelude.{ℕ, List, IfOk, IfErr};
ghost use Rattle.prefs_text.specs.Content.{IsQuoted};
ghost use Rattle.script_words.specs.Keys.{IsKeyWord};
ghost use Rattle.script_words.specs.Faults.{IsBadOrNoMemory};

use crate::WordsError;
use prefs_model::{PrefKey, PrefText};
use std::alloc::Global;

/// The text that the word quotes. It never answers `UnknownWord`.
pub fn text_of(alloc: Global, word: &str) -> Result<PrefText, WordsError>
    ensures ok { IfOk result (IsQuoted word.now) }
    ensures err { IfErr result (IsBadOrNoMemory ((text : List ℕ) → ¬ IsQuoted word.now text)) }
{
    Ok(prefs_text::quoted_text(alloc, word)?)
}

/// The key that the word quotes. It never answers `UnknownWord`.
pub fn key_of(alloc: Global, word: &str) -> Result<PrefKey, WordsError>
    ensures ok { IfOk result (IsKeyWord word.now) }
    ensures err { IfErr result (IsBadOrNoMemory ((key : List ℕ) → ¬ IsKeyWord word.now key)) }
{
    let text = text_of(alloc, word)?;
    PrefKey::new(text.into_string()).map_err(|_| WordsError::BadValue)
}
