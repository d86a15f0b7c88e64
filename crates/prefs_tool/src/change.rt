ghost use Rattle.std.specs.Prelude.{◌≡◌, ◌≢◌, ◌∷◌, [], ℕ, IfOk, IfErr};
ghost use Rattle.store_traits.specs.declared.applied.Applied.TheVariants.{Changed, Refused};
ghost use Rattle.store_traits.specs.Faults.{Counts};
ghost use Rattle.folder_disk.specs.Seen.{folder_seen};
ghost use Rattle.prefs_edit.specs.After.{after_steps};
ghost use Rattle.prefs_tool.specs.declared.tool_error.ToolError.TheVariants.{NoMemory};
ghost use Rattle.prefs_tool.specs.Changing.{ChangesMain, IsLight, NeverRefuses, NoEdit};
ghost use Rattle.prefs_tool.specs.Folder.{is_storage};
ghost use Rattle.prefs_tool.specs.Replacing.{StoresMap, SyncsMain};

use crate::read::{FILE_LIMIT, read_map};
use crate::replace::replace_main;
use crate::tool_error::ToolError;
use folder_disk::Folder;
use prefs_edit::{Edit, EditError, EditStep};
use prefs_model::PrefMap;
use prefs_proto::PrefsCodec;
use std::alloc::Global;
use store_traits::{Applied, Codec, Transform};

/// Makes what the step makes of the settings that main reads as. Where they stay the same, nothing is
/// written, and the folder is synced all the same.
pub(crate) fn change<F: Folder>(
    alloc: Global,
    folder: &mut F,
    step: EditStep,
) -> Result<(), ToolError>
    requires { NeverRefuses step }
    ensures outcome { ChangesMain step (folder_seen F.Folder folder.old) result (folder_seen F.Folder folder.new) }
    ensures faults { Counts (is_storage result) (F.tally folder.old).count (F.tally folder.new).count }
{
    let edit = edit_of(alloc, step)?;
    let old = read_map(alloc, folder)?;
    let new = edited(alloc, &edit, &old)?;
    if new.equal(&old) {
        return sync(folder);
    }
    store(alloc, folder, &new)
}

/// The edit of the one step.
fn edit_of(alloc: Global, step: EditStep) -> Result<Edit, ToolError>
    ensures edit { IfOk result (λ edit. (edit ≡ step ∷ []) × IsLight step) }
    ensures none { IfErr result (NoEdit step) }
{
    match Edit::new(vec![in alloc; step]?) {
        Ok(edit) => Ok(edit),
        Err(EditError::EditTooLong { .. }) => Err(ToolError::EditTooLong),
        Err(EditError::Count { .. }) => unreachable!(),
    }
}

/// What an edit makes of the map, if it refuses none.
fn edited(alloc: Global, edit: &Edit, old: &PrefMap) -> Result<PrefMap, ToolError>
    requires { (code : ℕ) → after_steps edit.now old.now ≢ Refused code }
    ensures made { IfOk result (λ new. after_steps edit.now old.now ≡ Changed new) }
    ensures err { IfErr result (λ e. e ≡ NoMemory) }
{
    match edit.apply(alloc, old)? {
        Applied::Changed(new) => Ok(new),
        Applied::Refused(_) => unreachable!(),
    }
}

/// Brings what main is to the disk.
fn sync<F: Folder>(folder: &mut F) -> Result<(), ToolError>
    ensures outcome { SyncsMain (folder_seen F.Folder folder.old) result (folder_seen F.Folder folder.new) }
    ensures faults { Counts (is_storage result) (F.tally folder.old).count (F.tally folder.new).count }
{
    folder.sync_folder()?;
    Ok(())
}

/// Makes the text of the map main, if it is no longer than a file may be.
fn store<F: Folder>(alloc: Global, folder: &mut F, map: &PrefMap) -> Result<(), ToolError>
    ensures outcome { StoresMap map.now (folder_seen F.Folder folder.old) result (folder_seen F.Folder folder.new) }
    ensures faults { Counts (is_storage result) (F.tally folder.old).count (F.tally folder.new).count }
{
    let len = PrefsCodec.encoded_len(map);
    if len > FILE_LIMIT {
        return Err(ToolError::ValueTooLong { len });
    }
    let text = PrefsCodec.encode(alloc, map)?;
    replace_main(alloc, folder, text)
}
