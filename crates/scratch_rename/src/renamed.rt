ghost use Rattle.std.specs.Prelude.{◌≡◌, IsTrue, MatchResult, OnOk, OnErr, is_err};
ghost use Rattle.folder_disk.specs.Contents.{folder_synced};
ghost use Rattle.folder_disk.specs.Tally.{Tallies};

use crate::Kept;
use folder_disk::{Folder, FolderCall};
use std::marker::Model;
use store_traits::FileBytes;

/// A write that is main, but that a machine stop may still undo. Clauses see its bytes.
#[derive(Drop)]
pub struct Renamed {
    bytes: FileBytes,
}

impl Model for Renamed {
    ghost use Rattle.std.specs.Prelude.{List, ℕ};

    ghost Value = { List ℕ };

    ghost view = { λ plan. plan.bytes };
}

impl Renamed {
    pub(crate) fn moved(bytes: FileBytes) -> Renamed
        ensures { result ≡ bytes }
    {
        Renamed { bytes }
    }

    /// Brings main's name to the disk. Where that failed the plan comes back as it was.
    pub fn keep<F: Folder>(self, folder: &mut F) -> Result<Kept, Renamed>
        ensures plan { MatchResult result (λ kept. kept ≡ self) (λ renamed. renamed ≡ self) }
        ensures ok { IsTrue F.told → OnOk result (F.contents folder.new ≡ folder_synced (F.contents folder.old)) }
        ensures err { IsTrue F.told → OnErr result (F.contents folder.new ≡ F.contents folder.old) }
        ensures tally { Tallies F.told FolderCall.SyncFolder (is_err result) (F.tally folder.old) (F.tally folder.new) }
        ensures room { F.room folder.new ≡ F.room folder.old }
    {
        match folder.sync_folder() {
            Ok(()) => Ok(Kept::settled(self.bytes)),
            Err(_) => Err(self),
        }
    }
}
