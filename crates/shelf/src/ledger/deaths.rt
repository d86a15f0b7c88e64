ghost use Rattle.std.specs.Prelude.{◌≡◌, ◌+◌, ◌∷◌, [], None, Some, true, false, length, IfSome, IfNone, ◌||◌, if◌then◌else◌};
ghost use Rattle.file_lock.specs.Owner.{freed_node};
ghost use Rattle.hist_journal.specs.declared.seen.KindSeen.TheVariants.{Death};
ghost use Rattle.hist_journal.specs.Nodes.{is_dead};
ghost use Rattle.shelf.specs.Deaths.{has_died, last_death};
ghost use Rattle.shelf.specs.Ledger.{freed_node_room, ledger_seen, Enters};
ghost use Rattle.shelf.specs.NodeStates.{dead_by, died_behind, died_by, has_node};

use super::Ledger;
use crate::node_table::NodeState;
use hist_journal::{Entry, Kind};
use store_traits::{CallId, NodeId};

impl<V: Drop, T: Drop> Ledger<V, T> {
    /// The place of the node's last Death, where it is dead, or has died since there were so many entries.
    pub fn death_since(&self, node: NodeId, since: Option<u64>) -> Option<u64>
        ensures died { IfSome result (λ at. (has_died node since self.now.journal.list ≡ true) × (last_death node self.now.journal.list ≡ Some at)) }
        ensures lives { IfNone result (has_died node since self.now.journal.list ≡ false) }
    {
        death_of(self.nodes.state_of(node), since)
    }

    /// The node of the call dies, by an entry of its call. What its calls own is free. Answers the place of the entry.
    pub fn die(&mut self, call: CallId) -> u64
        requires node { has_node call.node self.old.nodes ≡ true }
        requires lives { is_dead call.node self.old.journal.list ≡ false }
        ensures place { result ≡ length self.old.journal.list + 1 }
        ensures entry { Enters call (Death call.node ∷ []) 0 (freed_node call.node self.old.lock) (freed_node_room call.node self.old.lock self.old.reserved) (ledger_seen self.old) (ledger_seen self.new) }
    {
        self.journal.push(
            Entry {
                who: call,
                kind: Kind::Death(call.node),
            },
            0,
        );
        let place = self.journal.len();
        self.nodes.kill(call.node, place);
        self.reserved = room_without(self.lock.owner(), call.node, self.reserved);
        self.lock.free_node(call.node);
        place
    }
}

/// Where a node of this state died, if it is dead, or died behind so many entries.
fn death_of(state: Option<NodeState>, since: Option<u64>) -> Option<u64>
    ensures { result ≡ (if dead_by state || died_behind since (died_by state) then died_by state else None) }
{
    let state = state?;
    let died = state.died?;
    if state.is_dead || since.is_some_and(|since| since < died) {
        Some(died)
    } else {
        None
    }
}

/// The room of the lock's owner once the calls of this node own nothing.
fn room_without(owner: Option<CallId>, node: NodeId, room: u16) -> u16
    ensures { result ≡ freed_node_room node owner room }
{
    match owner {
        Some(owner) if owner.node == node => 0,
        _ => room,
    }
}
