ghost use Rattle.std.specs.Prelude.{◌≡◌, ◌<◌, ◌≤◌, ◌^◌, ◌++◌, ◌∷◌, [], false, IsTrue, OnOk, IfErr, IfSome};
ghost use Rattle.hist_journal.specs.Folds.{edition_of};
ghost use Rattle.hist_journal.specs.View.{base_seen};
ghost use Rattle.folder_disk.specs.Contents.{Starts};
ghost use Rattle.folder_disk.specs.Tally.{StartsTally};
ghost use Rattle.shelf.specs.AddsNode.{RefusesNode, is_among};
ghost use Rattle.shelf.specs.Base.{ReadsAs};
ghost use Rattle.shelf.specs.Opening.{Opens};
ghost use Rattle.shelf.specs.ShelfSeen.{shelf_seen};

use super::Shelf;
use crate::ledger::Ledger;
use crate::{AddNodeError, Parts, Setup, ShelfParts, ValueOf};
use folder_disk::Folder;
use hist_journal::{Base, Journal};
use std::alloc::Global;
use store_traits::{CallId, Codec, NodeId};

impl<P: Parts> Shelf<P> {
    /// Begins a session over this folder, whose main reads as the base. It takes no memory.
    pub fn new(alloc: Global, setup: Setup<P>, base: Base<ValueOf<P>>, mut folder: P::F) -> Shelf<P>
        requires limit { setup.limit < 2 ^ 63 }
        requires base { IsTrue P.F.told → ReadsAs (P.C.reads setup.codec) (P.C.default_of setup.codec) setup.limit (P.F.contents folder).main (base_seen base) }
        ensures shelf { Opens P.F.told (P.F.contents folder) (P.F.tally folder) setup.limit setup.bounds setup.deaths (base_seen base) (shelf_seen result) }
        ensures codec { result.codec ≡ setup.codec }
        ensures folder { IsTrue P.F.told → Starts (P.F.contents folder) (P.F.contents result.folder) }
        ensures tally { StartsTally P.F.told (P.F.tally folder) (P.F.tally result.folder) }
        ensures room { P.F.room result.folder ≡ P.F.room folder }
    {
        let first_faults = folder.faults();
        folder.start();
        Shelf {
            codec: setup.codec,
            folder,
            limit: setup.limit,
            first_faults,
            deaths: setup.deaths,
            ledger: Ledger::new(alloc, base, setup.bounds),
        }
    }

    /// Adds a node, which is not initialised. It keeps room for the node's Death.
    pub fn add_node(&mut self, alloc: Global, node: NodeId) -> Result<(), AddNodeError>
        ensures new { OnOk result (is_among node (shelf_seen self.old).store.nodes ≡ false) }
        ensures ok { OnOk result (shelf_seen self.new ≡ record (shelf_seen self.old) { store = record (shelf_seen self.old).store { nodes = (shelf_seen self.old).store.nodes ++ node ∷ [] } }) }
        ensures err { IfErr result (λ error. RefusesNode node (shelf_seen self.old).store.nodes error) }
        ensures same { IfErr result (λ error. shelf_seen self.new ≡ shelf_seen self.old) }
    {
        let _alloc = alloc;
        self.ledger.add_node(node)
    }

    pub fn journal(&self) -> &Journal<ValueOf<P>, P::T>
        ensures { result.now ≡ self.now.ledger.journal }
    {
        self.ledger.journal()
    }

    /// The call that owns the lock.
    pub fn owner(&self) -> Option<CallId>
        ensures { result ≡ self.now.ledger.lock }
    {
        self.ledger.owner()
    }

    /// How many value changes the history has.
    pub fn edition(&self) -> u64
        ensures { result ≡ edition_of self.now.ledger.journal.list }
    {
        self.ledger.edition()
    }

    pub fn codec(&self) -> &P::C
        ensures { result.now ≡ self.now.codec }
    {
        &self.codec
    }

    /// How often the folder has failed.
    pub fn faults(&self) -> u64
        ensures count { result ≡ (P.F.tally self.now.folder).count }
        ensures within { IfSome (shelf_seen self.now).store.folder.most (λ most. result ≤ most) }
    {
        self.folder.faults()
    }

    /// Ends the session.
    pub fn into_parts(self) -> ShelfParts<P>
        ensures codec { result.codec ≡ self.codec }
        ensures journal { result.journal ≡ self.ledger.journal }
        ensures folder { result.folder ≡ self.folder }
    {
        ShelfParts {
            codec: self.codec,
            journal: self.ledger.into_journal(),
            folder: self.folder,
        }
    }
}
