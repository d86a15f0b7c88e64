ghost use Rattle.std.specs.Prelude.{◌≡◌, ◌-◌, ◌≤◌, ◌∷◌, [], Some, true, length, IsTrue, IfOk, IfErr, OnOk, OnErr, is_err};
ghost use Rattle.folder_disk.specs.Contents.{folder_synced};
ghost use Rattle.folder_disk.specs.Tally.{Tallies};
ghost use Rattle.hist_journal.specs.declared.seen.KindSeen.TheVariants as kind;
ghost use Rattle.hist_journal.specs.Folds.{edition_of};
ghost use Rattle.shelf.specs.AddsNode.{is_among};
ghost use Rattle.shelf.specs.Endings.{synced_kinds, synced_weight};
ghost use Rattle.shelf.specs.Ledger.{ledger_seen, Enters};
ghost use Rattle.shelf.specs.ShelfSeen.{shelf_seen};
ghost use Rattle.shelf.specs.ShelfTurns.{Owns, IsRaised, May, MayFault, Adds, Frees, Faults};

use super::Shelf;
use crate::Parts;
use crate::ledger::Ledger;
use folder_disk::{Folder, FolderCall};
use hist_journal::Kind;
use store_traits::{CallId, Transform};

impl<P: Parts> Shelf<P> {
    /// Brings main's name to the disk. Where the call wrote nothing, the transform that kept the value is added first.
    /// Answers the edition, and leaves the lock.
    pub fn sync_folder(&mut self, call: CallId, same: Option<P::T>) -> Result<u64, u64>
        requires owner { Owns call (shelf_seen self.old) }
        requires ended { IsRaised call (shelf_seen self.old) → ⊥ }
        requires room { length (synced_kinds {V = P.C.Value} same) ≤ (shelf_seen self.old).room }
        requires lawful { IsTrue P.F.told → May P.T.after call (synced_kinds same) (shelf_seen self.old) }
        requires fault { IsTrue P.F.told → MayFault P.T.after call (shelf_seen self.old) }
        ensures edition { IfOk result (λ edition. edition ≡ edition_of self.old.ledger.journal.list) }
        ensures ok { OnOk result (Adds call (synced_kinds same) (shelf_seen self.old) (shelf_seen self.new)) }
        ensures err { IfErr result (λ at. Faults call (P.F.tally self.new.folder).count at (shelf_seen self.old) (shelf_seen self.new)) }
        ensures synced { IsTrue P.F.told → OnOk result (P.F.contents self.new.folder ≡ folder_synced (P.F.contents self.old.folder)) }
        ensures failed { IsTrue P.F.told → OnErr result (P.F.contents self.new.folder ≡ P.F.contents self.old.folder) }
        ensures tally { Tallies P.F.told FolderCall.SyncFolder (is_err result) (P.F.tally self.old.folder) (P.F.tally self.new.folder) }
        ensures room { P.F.room self.new.folder ≡ P.F.room self.old.folder }
    {
        match self.folder.sync_folder() {
            Ok(()) => {
                let edition = self.ledger.edition();
                add_synced(&mut self.ledger, call, same);
                Ok(edition)
            }
            Err(_) => Err(self.ledger.add_fault(call, self.folder.faults())),
        }
    }

    /// The node of the call is initialised, and the lock is free.
    pub fn finish_init(&mut self, call: CallId)
        requires node { is_among call.node (shelf_seen self.old).store.nodes ≡ true }
        requires owner { Owns call (shelf_seen self.old) }
        requires ended { IsRaised call (shelf_seen self.old) → ⊥ }
        requires room { 1 ≤ (shelf_seen self.old).room }
        requires lawful { IsTrue P.F.told → May P.T.after call (kind.Inited call.node ∷ []) (shelf_seen self.old) }
        ensures turn { Frees call (kind.Inited call.node ∷ []) (shelf_seen self.old) (shelf_seen self.new) }
        ensures folder { self.new.folder ≡ self.old.folder }
    {
        self.ledger.finish_init(call);
    }
}

/// Adds the entries of a sync of the folder.
fn add_synced<V: Drop, T: Transform>(ledger: &mut Ledger<V, T>, call: CallId, same: Option<T>)
    requires owner { ledger.old.lock ≡ Some call }
    requires room { length (synced_kinds {V = V} same) ≤ ledger.old.reserved }
    ensures { Enters call (synced_kinds same) (synced_weight T.weight_of same) ledger.old.lock (ledger.old.reserved - length (synced_kinds {V = V} same)) (ledger_seen ledger.old) (ledger_seen ledger.new) }
{
    match same {
        Some(transform) => {
            let weight = u64::from(transform.weight());
            ledger.add(call, Kind::Same(transform), weight);
            ledger.add(call, Kind::Synced, 0);
        }
        None => ledger.add(call, Kind::Synced, 0),
    }
}
