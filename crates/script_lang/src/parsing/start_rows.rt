//! The lines that say how the first session begins.
ghost use Rattle.std.specs.Prelude.{ℕ, List, IfOk, IfSome, IfNone};
ghost use Rattle.folder_disk.specs.declared.main_read.MainRead.{MainRead};
ghost use Rattle.script_words.specs.Words.{texts_at};
ghost use Rattle.script_lang.specs.Reading.{ReadsRow};
ghost use Rattle.script_lang.specs.Rows.{keyword, IsFileWord, SpellsBytes};

use crate::{Draft, Line, LineWord, ScriptFault};
use folder_disk::MainRead;
use prefs_text::decode_lower;
use script_words::number_of;
use std::alloc::{AllocError, Global};
use store_traits::FileBytes;

/// How many entries a history may have at the most.
pub(crate) const MAX_ENTRIES: u64 = 100_000;

/// `file HEX`, `file empty`, `file none`
pub(crate) fn read_file(alloc: Global, draft: &Draft, behind: &[&str]) -> Result<Line, ScriptFault>
    ensures { ReadsRow draft.now (keyword LineWord.File (texts_at behind.now)) result }
{
    let [word] = behind else {
        return Err(ScriptFault::BadValue);
    };
    let Some(main) = main_of(alloc, word)? else {
        return Err(ScriptFault::BadValue);
    };
    if draft.bars_file() {
        return Err(ScriptFault::WrongPlace);
    }
    Ok(Line::File(main))
}

/// `history N`
pub(crate) fn read_history(draft: &Draft, behind: &[&str]) -> Result<Line, ScriptFault>
    ensures { ReadsRow draft.now (keyword LineWord.History (texts_at behind.now)) result }
{
    let [word] = behind else {
        return Err(ScriptFault::BadValue);
    };
    let Some(entries) = number_of(word, 1, MAX_ENTRIES) else {
        return Err(ScriptFault::BadValue);
    };
    if draft.bars_history() {
        return Err(ScriptFault::WrongPlace);
    }
    Ok(Line::History(entries))
}

/// The file that the word says.
fn main_of(alloc: Global, word: &str) -> Result<Option<MainRead>, AllocError>
    ensures some { IfOk result (λ found. IfSome found (IsFileWord word.now)) }
    ensures none { IfOk result (λ found. IfNone found ((main : MainRead) → ¬ IsFileWord word.now main)) }
{
    match word {
        "none" => Ok(Some(MainRead::Absent)),
        "empty" => Ok(Some(MainRead::Bytes(FileBytes::new(Vec::new(alloc))))),
        _ => Ok(bytes_of(alloc, word)?.map(MainRead::Bytes)),
    }
}

/// The bytes that the word spells in lower-case hexadecimal, of which there is one at least.
fn bytes_of(alloc: Global, word: &str) -> Result<Option<FileBytes>, AllocError>
    ensures some { IfOk result (λ found. IfSome found (SpellsBytes word.now)) }
    ensures none { IfOk result (λ found. IfNone found ((bytes : List ℕ) → ¬ SpellsBytes word.now bytes)) }
{
    let count = word.len() / 2;
    if count == 0 {
        return Ok(None);
    }
    let mut bytes = vec![in alloc; 0u8; count]?;
    let mut digits = vec![in alloc; 0u8; 2 * count]?;
    if !decode_lower(word, &mut bytes, &mut digits) {
        return Ok(None);
    }
    Ok(Some(FileBytes::new(bytes)))
}
