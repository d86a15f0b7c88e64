ghost use Rattle.std.specs.Prelude.{◌≡◌, ◌+◌, ◌^◌, ◌<◌, ◌≤◌, ◌++◌, [], length, IsTrue, MatchResult, OnOk, OnErr, is_err};
ghost use Rattle.folder_disk.specs.Contents.{Unsynced, ChangesScratch, LoosensScratch};
ghost use Rattle.folder_disk.specs.Contents as model;
ghost use Rattle.folder_disk.specs.Room.{Uses};
ghost use Rattle.folder_disk.specs.Tally.{Tallies};
ghost use Rattle.scratch_rename.specs.Filling.{next_piece, filled_more};

use crate::Synced;
use folder_disk::{Folder, FolderCall};
use std::marker::Model;
use store_traits::FileBytes;

/// How many bytes one append has at the most.
const PIECE_LEN: usize = 4096;

/// A write whose scratch file is being filled. Clauses see the bytes that are written, and the rest.
#[derive(Drop)]
pub struct Filled {
    bytes: FileBytes,
    /// How many of the bytes are written.
    written: usize,
}

impl Model for Filled {
    ghost use Rattle.std.specs.Prelude.{◌≤◌, take, drop, length};
    ghost use Rattle.scratch_rename.specs.Filling.{Filling};

    ghost Value = { Filling };

    ghost view = { λ plan. record { written = take plan.written plan.bytes; rest = drop plan.written plan.bytes } };

    ghost invariant = { λ plan. plan.written ≤ length plan.bytes };
}

impl Filled {
    /// Nothing is written yet.
    pub(crate) fn begun(bytes: FileBytes) -> Filled
        ensures { result ≡ record { written = []; rest = bytes } }
    {
        Filled { bytes, written: 0 }
    }

    /// How many bytes are still to be appended.
    pub fn rest(&self) -> u64
        ensures { result ≡ length self.now.rest }
    {
        (self.bytes.as_slice().len() - self.written) as u64
    }

    /// The bytes that the next append writes.
    #[tactic(auto, using(std::proofs::lemmas::List::take_min))]
    fn next_piece(&self) -> &[u8]
        ensures piece { result.now ≡ next_piece self.now }
        ensures fits { length self.now.written + length result.now < 2 ^ 63 }
    {
        let (_, rest) = self.bytes.as_slice().split_at(self.written);
        let (piece, _) = rest.split_at(PIECE_LEN.min(rest.len()));
        piece
    }

    /// Appends the next 4,096 bytes, or all that are left. Where that failed the plan comes back as it was.
    pub fn append<F: Folder>(self, folder: &mut F) -> Result<Filled, Filled>
        requires room { length (next_piece self) ≤ (F.room folder.old).bytes }
        requires scratch { IsTrue F.told → (F.contents folder.old).scratch ≡ Unsynced self.written }
        ensures plan { MatchResult result (λ filled. filled ≡ filled_more self) (λ filled. filled ≡ self) }
        ensures ok { IsTrue F.told → OnOk result (ChangesScratch (Unsynced (self.written ++ next_piece self)) (F.contents folder.old) (F.contents folder.new)) }
        ensures err { IsTrue F.told → OnErr result (LoosensScratch (F.contents folder.old) (F.contents folder.new)) }
        ensures spared { IsTrue F.told → IsTrue F.spares → OnErr result (F.contents folder.new ≡ F.contents folder.old) }
        ensures tally { Tallies F.told FolderCall.Append (is_err result) (F.tally folder.old) (F.tally folder.new) }
        ensures room { Uses 0 (length (next_piece self)) 0 (F.room folder.old) (F.room folder.new) }
    {
        let piece = self.next_piece();
        let end = self.written + piece.len();
        match folder.append_scratch(piece) {
            Ok(()) => Ok(Filled {
                bytes: self.bytes,
                written: end,
            }),
            // The piece counts as not written.
            Err(_) => Err(self),
        }
    }

    /// Brings the whole scratch file to the disk. Where that failed the plan comes back as it was.
    pub fn sync<F: Folder>(self, folder: &mut F) -> Result<Synced, Filled>
        requires whole { length self.rest ≡ 0 }
        requires scratch { IsTrue F.told → (F.contents folder.old).scratch ≡ Unsynced self.written }
        ensures plan { MatchResult result (λ synced. synced ≡ self.written) (λ filled. filled ≡ self) }
        ensures ok { IsTrue F.told → OnOk result (ChangesScratch (model.Synced self.written) (F.contents folder.old) (F.contents folder.new)) }
        ensures err { IsTrue F.told → OnErr result (LoosensScratch (F.contents folder.old) (F.contents folder.new)) }
        ensures spared { IsTrue F.told → IsTrue F.spares → OnErr result (F.contents folder.new ≡ F.contents folder.old) }
        ensures tally { Tallies F.told FolderCall.SyncScratch (is_err result) (F.tally folder.old) (F.tally folder.new) }
        ensures room { F.room folder.new ≡ F.room folder.old }
    {
        match folder.sync_scratch() {
            Ok(()) => Ok(Synced::whole(self.bytes)),
            Err(_) => Err(self),
        }
    }
}
