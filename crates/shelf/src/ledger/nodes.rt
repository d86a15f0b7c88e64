ghost use Rattle.std.specs.Prelude.{◌≡◌, [], None, OnOk, IfErr};
ghost use Rattle.hist_journal.specs.Journal.{KeepsHistory};
ghost use Rattle.hist_journal.specs.Nodes.{is_ready};
ghost use Rattle.hist_journal.specs.View.{base_seen};
ghost use Rattle.shelf.specs.AddsNode.{AddsNode, RefusesNode};
ghost use Rattle.shelf.specs.Ledger.{ledger_seen};

use super::Ledger;
use crate::AddNodeError;
use crate::node_table::NodeTable;
use file_lock::LockTable;
use hist_journal::{Base, Bounds, Journal};
use std::alloc::Global;
use store_traits::{CallId, NodeId};

impl<V: Drop, T: Drop> Ledger<V, T> {
    /// An empty history, of no node, whose lock is free. It takes no memory.
    pub fn new(alloc: Global, base: Base<V>, bounds: Bounds) -> Ledger<V, T>
        ensures { ledger_seen result ≡ record { base = base_seen base; bounds = bounds; nodes = []; list = []; weight = 0; owner = None; room = 0 } }
    {
        Ledger {
            journal: Journal::new(alloc, base, bounds),
            edition: 0,
            lock: LockTable::new(),
            reserved: 0,
            nodes: NodeTable::new(alloc),
        }
    }

    /// Adds a node that is not initialised, with room for its Death.
    pub fn add_node(&mut self, node: NodeId) -> Result<(), AddNodeError>
        ensures ok { OnOk result (AddsNode node (ledger_seen self.old) (ledger_seen self.new)) }
        ensures err { IfErr result (λ error. RefusesNode node (ledger_seen self.old).nodes error) }
        ensures same { IfErr result (λ error. ledger_seen self.new ≡ ledger_seen self.old) }
        ensures history { KeepsHistory self.old.journal self.new.journal }
    {
        if self.nodes.has(node) {
            return Err(AddNodeError::Exists);
        }
        self.journal
            .reserve_past(u32::from(self.reserved) + self.nodes.living() + 1)?;
        self.nodes.add(node)?;
        Ok(())
    }

    pub fn journal(&self) -> &Journal<V, T>
        ensures { result.now ≡ self.now.journal }
    {
        &self.journal
    }

    pub fn into_journal(self) -> Journal<V, T>
        ensures { result ≡ self.journal }
    {
        self.journal
    }

    pub fn owner(&self) -> Option<CallId>
        ensures { result ≡ self.now.lock }
    {
        self.lock.owner()
    }

    /// The node is initialised.
    pub fn is_ready(&self, node: NodeId) -> bool
        ensures { result ≡ is_ready node self.now.journal.list }
    {
        self.nodes.is_ready(node)
    }

    /// How many value changes the history has.
    pub fn edition(&self) -> u64
        ensures { result ≡ self.now.edition }
    {
        self.edition
    }
}
