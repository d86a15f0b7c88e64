//! The lines that have calls of the folder fail.
ghost use Rattle.std.specs.Prelude.{◌≡◌, IfSome, IfNone};
ghost use Rattle.script_words.specs.Words.{texts_at};
ghost use Rattle.script_lang.specs.Reading.{ReadsRow};
ghost use Rattle.script_lang.specs.Rows.{keyword, IsFolderCall, folder_call};

use crate::{Draft, Line, LineWord, ScriptFault};
use folder_disk::{FolderCall, Planned};
use script_words::number_of;

/// The greatest number that a planned failure has among the calls of its kind.
const MAX_NUMBER: u64 = 4_294_967_295;

/// How many calls the longest fuse lets pass.
const MAX_FUSE: u64 = 4_294_967_295;

/// `fault CALL N`
pub(crate) fn read_fault(draft: &Draft, behind: &[&str]) -> Result<Line, ScriptFault>
    ensures { ReadsRow draft.now (keyword LineWord.Fault (texts_at behind.now)) result }
{
    let [call, ..] = behind else {
        return Err(ScriptFault::BadValue);
    };
    let Some(call) = folder_call_of(call) else {
        return Err(ScriptFault::UnknownWord);
    };
    let [_, word] = behind else {
        return Err(ScriptFault::BadValue);
    };
    let Some(number) = number_of(word, 1, MAX_NUMBER) else {
        return Err(ScriptFault::BadValue);
    };
    if draft.bars_faults() {
        return Err(ScriptFault::WrongPlace);
    }
    Ok(Line::Fault(Planned {
        call,
        number: number as u32,
    }))
}

/// `fuse N`
pub(crate) fn read_fuse(draft: &Draft, behind: &[&str]) -> Result<Line, ScriptFault>
    ensures { ReadsRow draft.now (keyword LineWord.Fuse (texts_at behind.now)) result }
{
    let [word] = behind else {
        return Err(ScriptFault::BadValue);
    };
    let Some(left) = number_of(word, 0, MAX_FUSE) else {
        return Err(ScriptFault::BadValue);
    };
    if draft.bars_faults() {
        return Err(ScriptFault::WrongPlace);
    }
    Ok(Line::Fuse(left))
}

/// The call of the folder that is spelled so.
fn folder_call_of(word: &str) -> Option<FolderCall>
    ensures some { IfSome result (λ call. word.now ≡ folder_call call) }
    ensures none { IfNone result (¬ IsFolderCall word.now) }
{
    match word {
        "read_main" => Some(FolderCall::ReadMain),
        "create" => Some(FolderCall::Create),
        "append" => Some(FolderCall::Append),
        "sync" => Some(FolderCall::SyncScratch),
        "rename" => Some(FolderCall::Rename),
        "sync_folder" => Some(FolderCall::SyncFolder),
        _ => None,
    }
}
