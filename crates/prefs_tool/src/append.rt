ghost use Rattle.std.specs.Prelude.{◌≡◌, ◌≤◌, ◌++◌, IsTrue, IfOk, IfErr, OnOk, is_err, length};
ghost use Rattle.folder_disk.specs.Calls.{Makes};
ghost use Rattle.folder_disk.specs.Contents.{Unsynced};
ghost use Rattle.prefs_tool.specs.declared.tool_error.ToolError.TheVariants.{Storage};
ghost use Rattle.store_traits.specs.Faults.{Counts};
ghost use Rattle.prefs_tool.specs.Folder.{SparesMain, append_calls};

use crate::tool_error::ToolError;
use folder_disk::Folder;
use scratch_rename::Filled;

/// Appends all that is left of the plan, piece by piece.
pub(crate) fn append_rest<F: Folder>(plan: Filled, folder: &mut F) -> Result<Filled, ToolError>
    requires room { length plan.rest ≤ (F.room folder.old).bytes }
    requires scratch { IsTrue F.told → (F.contents folder.old).scratch ≡ Unsynced plan.written }
    ensures whole { IfOk result (λ filled. (filled.written ≡ plan.written ++ plan.rest) × (length filled.rest ≡ 0)) }
    ensures scratch { IsTrue F.told → OnOk result ((F.contents folder.new).scratch ≡ Unsynced (plan.written ++ plan.rest)) }
    ensures err { IfErr result (λ e. e ≡ Storage) }
    ensures spared { IsTrue F.told → SparesMain (F.contents folder.old) (F.contents folder.new) }
    ensures calls { IsTrue F.told → Makes (append_calls (length plan.rest)) (is_err result) (F.tally folder.old).due (F.tally folder.new).due }
    ensures faults { Counts (is_err result) (F.tally folder.old).count (F.tally folder.new).count }
    ensures renames { (F.room folder.old).renames ≤ (F.room folder.new).renames }
{
    let mut filled = plan;
    while filled.rest() > 0 {
        filled = filled.append(folder)?;
    }
    Ok(filled)
}
