ghost use Rattle.std.specs.Prelude.{◌≡◌, ◌≤◌, [], IsTrue, MatchResult, OnOk, OnErr, is_err};
ghost use Rattle.folder_disk.specs.Contents.{Unsynced, ChangesScratch, LoosensScratch};
ghost use Rattle.folder_disk.specs.Room.{Uses};
ghost use Rattle.folder_disk.specs.Tally.{Tallies};

use crate::Filled;
use folder_disk::{Folder, FolderCall};
use std::marker::Model;
use store_traits::FileBytes;

/// A write that has not begun. Clauses see the bytes that are to become main.
#[derive(Drop)]
pub struct Fresh {
    bytes: FileBytes,
}

impl Model for Fresh {
    ghost use Rattle.std.specs.Prelude.{List, ℕ};

    ghost Value = { List ℕ };

    ghost view = { λ plan. plan.bytes };
}

impl Fresh {
    /// Takes no memory.
    pub fn new(bytes: FileBytes) -> Fresh
        ensures { result ≡ bytes }
    {
        Fresh { bytes }
    }

    /// Makes the scratch file empty. Where that failed the plan comes back as it was.
    pub fn create<F: Folder>(self, folder: &mut F) -> Result<Filled, Fresh>
        requires room { 1 ≤ (F.room folder.old).creates }
        ensures plan { MatchResult result (λ filled. filled ≡ record { written = []; rest = self }) (λ fresh. fresh ≡ self) }
        ensures ok { IsTrue F.told → OnOk result (ChangesScratch (Unsynced []) (F.contents folder.old) (F.contents folder.new)) }
        ensures err { IsTrue F.told → OnErr result (LoosensScratch (F.contents folder.old) (F.contents folder.new)) }
        ensures spared { IsTrue F.told → IsTrue F.spares → OnErr result (F.contents folder.new ≡ F.contents folder.old) }
        ensures tally { Tallies F.told FolderCall.Create (is_err result) (F.tally folder.old) (F.tally folder.new) }
        ensures room { Uses 1 0 0 (F.room folder.old) (F.room folder.new) }
    {
        match folder.create_scratch() {
            Ok(()) => Ok(Filled::begun(self.bytes)),
            Err(_) => Err(self),
        }
    }
}
