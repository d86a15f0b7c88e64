ghost use Rattle.std.specs.Prelude.{◌≡◌, ◌≤◌, IsTrue, IfOk, IfErr, OnOk, is_err, length};
ghost use Rattle.folder_disk.specs.Calls.{Makes};
ghost use Rattle.folder_disk.specs.Contents as model;
ghost use Rattle.folder_disk.specs.Room.{HasRoomFor};
ghost use Rattle.folder_disk.specs.Seen.{folder_seen};
ghost use Rattle.prefs_tool.specs.declared.tool_error.ToolError.TheVariants.{Storage};
ghost use Rattle.store_traits.specs.Faults.{Counts};
ghost use Rattle.prefs_tool.specs.Folder.{SparesMain, fill_calls, is_storage};
ghost use Rattle.prefs_tool.specs.Replacing.{ReplacesMain};

use crate::append::append_rest;
use crate::tool_error::ToolError;
use folder_disk::Folder;
use scratch_rename::{Fresh, Synced};
use std::alloc::Global;
use store_traits::FileBytes;

/// Makes the text main, and brings it to the disk.
pub(crate) fn replace_main<F: Folder>(
    alloc: Global,
    folder: &mut F,
    text: FileBytes,
) -> Result<(), ToolError>
    ensures outcome { ReplacesMain text (folder_seen F.Folder folder.old) result (folder_seen F.Folder folder.new) }
    ensures faults { Counts (is_storage result) (F.tally folder.old).count (F.tally folder.new).count }
{
    folder.make_room(alloc, text.as_slice().len() as u64)?;
    // The bytes are on the disk before the name is, so that a machine stop leaves main whole.
    let synced = fill_scratch(folder, text)?;
    let renamed = synced.rename(folder)?;
    let _kept = renamed.keep(folder)?;
    Ok(())
}

/// Leaves the text as the scratch file, on the disk.
fn fill_scratch<F: Folder>(folder: &mut F, text: FileBytes) -> Result<Synced, ToolError>
    requires { HasRoomFor (length text) (F.room folder.old) }
    ensures ok { IfOk result (λ synced. synced ≡ text) }
    ensures scratch { IsTrue F.told → OnOk result ((F.contents folder.new).scratch ≡ model.Synced text) }
    ensures err { IfErr result (λ e. e ≡ Storage) }
    ensures spared { IsTrue F.told → SparesMain (F.contents folder.old) (F.contents folder.new) }
    ensures calls { IsTrue F.told → Makes (fill_calls (length text)) (is_err result) (F.tally folder.old).due (F.tally folder.new).due }
    ensures faults { Counts (is_err result) (F.tally folder.old).count (F.tally folder.new).count }
    ensures rename { 1 ≤ (F.room folder.new).renames }
{
    let begun = Fresh::new(text).create(folder)?;
    let filled = append_rest(begun, folder)?;
    Ok(filled.sync(folder)?)
}
