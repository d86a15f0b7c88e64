ghost use Rattle.std.specs.Prelude.{◌≡◌, ◌≤◌, Some, IsTrue, MatchResult, OnOk, OnErr, is_err};
ghost use Rattle.folder_disk.specs.Contents as model;
ghost use Rattle.folder_disk.specs.Contents.{renamed};
ghost use Rattle.folder_disk.specs.Tally.{Tallies};

use crate::Renamed;
use folder_disk::{Folder, FolderCall};
use std::marker::Model;
use store_traits::FileBytes;

/// A write whose scratch file is whole and on the disk. Clauses see its bytes.
#[derive(Drop)]
pub struct Synced {
    bytes: FileBytes,
}

impl Model for Synced {
    ghost use Rattle.std.specs.Prelude.{List, ℕ};

    ghost Value = { List ℕ };

    ghost view = { λ plan. plan.bytes };
}

impl Synced {
    pub(crate) fn whole(bytes: FileBytes) -> Synced
        ensures { result ≡ bytes }
    {
        Synced { bytes }
    }

    /// Moves the scratch file over main. It may use up the folder's whole room. Where that failed the plan
    /// comes back as it was.
    pub fn rename<F: Folder>(self, folder: &mut F) -> Result<Renamed, Synced>
        requires room { 1 ≤ (F.room folder.old).renames }
        requires scratch { IsTrue F.told → (F.contents folder.old).scratch ≡ model.Synced self }
        ensures plan { MatchResult result (λ renamed. renamed ≡ self) (λ synced. synced ≡ self) }
        ensures ok { IsTrue F.told → OnOk result (F.contents folder.new ≡ renamed (F.contents folder.old)) }
        ensures main { IsTrue F.told → OnOk result ((F.contents folder.new).main ≡ Some self) }
        ensures err { IsTrue F.told → OnErr result (F.contents folder.new ≡ F.contents folder.old) }
        ensures tally { Tallies F.told FolderCall.Rename (is_err result) (F.tally folder.old) (F.tally folder.new) }
    {
        match folder.rename_scratch() {
            Ok(()) => Ok(Renamed::moved(self.bytes)),
            Err(_) => Err(self),
        }
    }
}
