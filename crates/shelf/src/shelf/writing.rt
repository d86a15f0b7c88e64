ghost use Rattle.std.specs.Prelude.{◌≡◌, ◌+◌, ◌-◌, ◌≤◌, ◌++◌, ◌∷◌, [], true, length, IsTrue, IfOk, IfErr, OnOk, OnErr, is_err};
ghost use Rattle.folder_disk.specs.Contents.{Unsynced, ChangesScratch, LoosensScratch, renamed};
ghost use Rattle.folder_disk.specs.Contents as model;
ghost use Rattle.folder_disk.specs.Room.{Uses};
ghost use Rattle.folder_disk.specs.Tally.{Tallies};
ghost use Rattle.hist_journal.specs.declared.seen.KindSeen.TheVariants as kind;
ghost use Rattle.hist_journal.specs.Folds.{raises_of};
ghost use Rattle.hist_journal.specs.Kinds.{is_change};
ghost use Rattle.hist_journal.specs.View.{kind_seen};
ghost use Rattle.scratch_rename.specs.Filling.{next_piece, filled_more};
ghost use Rattle.shelf.specs.Plans.{WritesChange};
ghost use Rattle.shelf.specs.ShelfSeen.{shelf_seen};
ghost use Rattle.shelf.specs.ShelfTurns.{Owns, May, MayFault, Adds, Faults};
ghost use Rattle.shelf.specs.Rules.{rules_of};

use super::Shelf;
use super::weighing::weight_of;
use crate::{Parts, ValueOf};
use folder_disk::{Folder, FolderCall};
use hist_journal::Kind;
use scratch_rename::{Filled, Fresh, Renamed, Synced};
use store_traits::{CallId, Codec, Transform, Word};

impl<P: Parts> Shelf<P> {
    /// Raises the version word, and the history with it.
    pub fn raise<W: Word>(&mut self, word: &mut W, call: CallId)
        requires ready { W.ready (W.made word.old) }
        requires number { W.number word.old ≡ raises_of self.old.ledger.journal.list }
        requires owner { Owns call (shelf_seen self.old) }
        requires room { 1 ≤ (shelf_seen self.old).room }
        requires lawful { IsTrue P.F.told → May P.T.after call (kind.Raise ∷ []) (shelf_seen self.old) }
        ensures turn { Adds call (kind.Raise ∷ []) (shelf_seen self.old) (shelf_seen self.new) }
        ensures folder { self.new.folder ≡ self.old.folder }
        ensures number { W.number word.new ≡ W.number word.old + 1 }
        ensures made { W.made word.new ≡ W.made word.old }
    {
        self.ledger.add(call, Kind::Raise, 0);
        // The number of entries fits, so that of the raises does.
        let _entries = self.ledger.journal().len();
        word.raise();
    }

    /// Makes the scratch file empty.
    pub fn create(&mut self, call: CallId, plan: Fresh) -> Result<Filled, u64>
        requires owner { Owns call (shelf_seen self.old) }
        requires room { 1 ≤ (shelf_seen self.old).room }
        requires folder_room { 1 ≤ (P.F.room self.old.folder).creates }
        requires lawful { IsTrue P.F.told → MayFault P.T.after call (shelf_seen self.old) }
        ensures plan { IfOk result (λ filled. filled ≡ record { written = []; rest = plan }) }
        ensures ok { OnOk result (Adds call [] (shelf_seen self.old) (shelf_seen self.new)) }
        ensures err { IfErr result (λ at. Faults call (P.F.tally self.new.folder).count at (shelf_seen self.old) (shelf_seen self.new)) }
        ensures created { IsTrue P.F.told → OnOk result (ChangesScratch (Unsynced []) (P.F.contents self.old.folder) (P.F.contents self.new.folder)) }
        ensures failed { IsTrue P.F.told → OnErr result (LoosensScratch (P.F.contents self.old.folder) (P.F.contents self.new.folder)) }
        ensures spared { IsTrue P.F.told → IsTrue P.F.spares → OnErr result (P.F.contents self.new.folder ≡ P.F.contents self.old.folder) }
        ensures tally { Tallies P.F.told FolderCall.Create (is_err result) (P.F.tally self.old.folder) (P.F.tally self.new.folder) }
        ensures room { Uses 1 0 0 (P.F.room self.old.folder) (P.F.room self.new.folder) }
    {
        match plan.create(&mut self.folder) {
            Ok(filled) => Ok(filled),
            Err(_) => Err(self.ledger.add_fault(call, self.folder.faults())),
        }
    }

    /// Appends the next 4,096 bytes to the scratch file, or all that are left.
    pub fn append(&mut self, call: CallId, plan: Filled) -> Result<Filled, u64>
        requires owner { Owns call (shelf_seen self.old) }
        requires room { 1 ≤ (shelf_seen self.old).room }
        requires folder_room { length (next_piece plan) ≤ (P.F.room self.old.folder).bytes }
        requires scratch { IsTrue P.F.told → (P.F.contents self.old.folder).scratch ≡ Unsynced plan.written }
        requires lawful { IsTrue P.F.told → MayFault P.T.after call (shelf_seen self.old) }
        ensures plan { IfOk result (λ filled. filled ≡ filled_more plan) }
        ensures ok { OnOk result (Adds call [] (shelf_seen self.old) (shelf_seen self.new)) }
        ensures err { IfErr result (λ at. Faults call (P.F.tally self.new.folder).count at (shelf_seen self.old) (shelf_seen self.new)) }
        ensures appended { IsTrue P.F.told → OnOk result (ChangesScratch (Unsynced (plan.written ++ next_piece plan)) (P.F.contents self.old.folder) (P.F.contents self.new.folder)) }
        ensures failed { IsTrue P.F.told → OnErr result (LoosensScratch (P.F.contents self.old.folder) (P.F.contents self.new.folder)) }
        ensures spared { IsTrue P.F.told → IsTrue P.F.spares → OnErr result (P.F.contents self.new.folder ≡ P.F.contents self.old.folder) }
        ensures tally { Tallies P.F.told FolderCall.Append (is_err result) (P.F.tally self.old.folder) (P.F.tally self.new.folder) }
        ensures room { Uses 0 (length (next_piece plan)) 0 (P.F.room self.old.folder) (P.F.room self.new.folder) }
    {
        match plan.append(&mut self.folder) {
            Ok(filled) => Ok(filled),
            Err(_) => Err(self.ledger.add_fault(call, self.folder.faults())),
        }
    }

    /// Brings the whole scratch file to the disk.
    pub fn sync_scratch(&mut self, call: CallId, plan: Filled) -> Result<Synced, u64>
        requires owner { Owns call (shelf_seen self.old) }
        requires room { 1 ≤ (shelf_seen self.old).room }
        requires whole { length plan.rest ≡ 0 }
        requires scratch { IsTrue P.F.told → (P.F.contents self.old.folder).scratch ≡ Unsynced plan.written }
        requires lawful { IsTrue P.F.told → MayFault P.T.after call (shelf_seen self.old) }
        ensures plan { IfOk result (λ synced. synced ≡ plan.written) }
        ensures ok { OnOk result (Adds call [] (shelf_seen self.old) (shelf_seen self.new)) }
        ensures err { IfErr result (λ at. Faults call (P.F.tally self.new.folder).count at (shelf_seen self.old) (shelf_seen self.new)) }
        ensures synced { IsTrue P.F.told → OnOk result (ChangesScratch (model.Synced plan.written) (P.F.contents self.old.folder) (P.F.contents self.new.folder)) }
        ensures failed { IsTrue P.F.told → OnErr result (LoosensScratch (P.F.contents self.old.folder) (P.F.contents self.new.folder)) }
        ensures spared { IsTrue P.F.told → IsTrue P.F.spares → OnErr result (P.F.contents self.new.folder ≡ P.F.contents self.old.folder) }
        ensures tally { Tallies P.F.told FolderCall.SyncScratch (is_err result) (P.F.tally self.old.folder) (P.F.tally self.new.folder) }
        ensures room { P.F.room self.new.folder ≡ P.F.room self.old.folder }
    {
        match plan.sync(&mut self.folder) {
            Ok(synced) => Ok(synced),
            Err(_) => Err(self.ledger.add_fault(call, self.folder.faults())),
        }
    }

    /// Moves the scratch file over main, and adds the value change of which it is the text.
    pub fn rename(
        &mut self,
        call: CallId,
        plan: Synced,
        change: Kind<ValueOf<P>, P::T>,
    ) -> Result<Renamed, u64>
        requires owner { Owns call (shelf_seen self.old) }
        requires room { 1 ≤ (shelf_seen self.old).room }
        requires folder_room { 1 ≤ (P.F.room self.old.folder).renames }
        requires scratch { IsTrue P.F.told → (P.F.contents self.old.folder).scratch ≡ model.Synced plan }
        requires change { is_change (kind_seen change) ≡ true }
        requires lawful { IsTrue P.F.told → May P.T.after call (kind_seen change ∷ []) (shelf_seen self.old) }
        requires fault { IsTrue P.F.told → MayFault P.T.after call (shelf_seen self.old) }
        requires writes { IsTrue P.F.told → WritesChange (rules_of P.T.after P.T.weight_of (P.C.encoded self.old.codec) (P.C.reads self.old.codec) (P.C.default_of self.old.codec)) (P.C.is_value self.old.codec) (shelf_seen self.old).store self.old.ledger.journal.list (record { who = call; kind = kind_seen change }) plan }
        ensures plan { IfOk result (λ renamed. renamed ≡ plan) }
        ensures ok { OnOk result (Adds call (kind_seen change ∷ []) (shelf_seen self.old) (shelf_seen self.new)) }
        ensures err { IfErr result (λ at. Faults call (P.F.tally self.new.folder).count at (shelf_seen self.old) (shelf_seen self.new)) }
        ensures renamed { IsTrue P.F.told → OnOk result (P.F.contents self.new.folder ≡ renamed (P.F.contents self.old.folder)) }
        ensures failed { IsTrue P.F.told → OnErr result (P.F.contents self.new.folder ≡ P.F.contents self.old.folder) }
        ensures tally { Tallies P.F.told FolderCall.Rename (is_err result) (P.F.tally self.old.folder) (P.F.tally self.new.folder) }
    {
        match plan.rename(&mut self.folder) {
            Ok(renamed) => {
                let weight = weight_of(&self.codec, &change);
                self.ledger.add(call, change, weight);
                Ok(renamed)
            }
            Err(_) => Err(self.ledger.add_fault(call, self.folder.faults())),
        }
    }
}
