ghost use Rattle.std.specs.Prelude.{◌≡◌, ◌+◌, ◌-◌, ◌^◌, ◌≤◌, Some};
ghost use Rattle.store_traits.specs.declared.ids.CallId.{CallId};
ghost use Rattle.store_traits.specs.declared.ids.NodeId.{NodeId};
ghost use Rattle.hist_journal.specs.Folds.{edition_of};
ghost use Rattle.hist_journal.specs.Nodes.{is_dead, is_ready};
ghost use Rattle.hist_journal.specs.Quiet.{pending};
ghost use Rattle.shelf.specs.Deaths.{last_death};
ghost use Rattle.shelf.specs.NodeStates.{death_place, has_dead, has_ready, living};

use crate::node_table::NodeTable;
use file_lock::LockTable;
use hist_journal::Journal;

mod deaths;
mod entering;
mod holding;
mod nodes;
mod restarting;

/// The history of a session and what is kept with it: the lock, the nodes, and the room that entries to come may need.
#[derive(Drop)]
pub struct Ledger<V, T> {
    journal: Journal<V, T>,
    /// How many value changes the history has.
    edition: u64,
    lock: LockTable,
    /// How many entries the owner of the lock may still add.
    reserved: u16,
    nodes: NodeTable,
    /// The journal has room for the owner's entries, and beside it for the next Death of each living node.
    pub ghost has_room: { reserved + living nodes ≤ journal.room },
    pub ghost weight_fits: { journal.weight ≤ 2 ^ 64 - 1 },
    pub ghost counts_editions: { edition ≡ edition_of journal.list },
    /// No raise is open but that of the lock's owner.
    pub ghost quiet: { (call : CallId) → pending journal.list ≡ Some call → lock ≡ Some call },
    /// The nodes know which of them are initialised.
    pub ghost ready: { (node : NodeId) → has_ready node nodes ≡ is_ready node journal.list },
    /// And which of them are dead, and where each died last.
    pub ghost dead: { (node : NodeId) → has_dead node nodes ≡ is_dead node journal.list },
    pub ghost last: { (node : NodeId) → death_place node nodes ≡ last_death node journal.list },
}
