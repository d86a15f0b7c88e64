ghost use Rattle.std.specs.Prelude.{◌≡◌, ◌≤◌, ◌^◌, ◌++◌, ◌∷◌, [], false, None, position, OnOk, OnErr};
ghost use Rattle.store_traits.specs.declared.ids.NodeId.{NodeId};
ghost use Rattle.hist_journal.specs.Kinds.{is_node};
ghost use Rattle.shelf.specs.NodeStates.{changed, has_dead, has_node, has_ready, initialised, killed, living, revived, state_of};

use std::alloc::{AllocError, Global};
use std::marker::Model;
use store_traits::NodeId;

/// A node of the store.
#[derive(Clone, Copy, Debug, PartialEq, Eq)]
pub struct NodeState {
    pub id: NodeId,
    /// The node is initialised.
    pub is_ready: bool,
    pub is_dead: bool,
    /// The place of its last Death in the history, counted from 1.
    pub died: Option<u64>,
}

/// How many nodes a table may have.
const MOST_NODES: usize = 0x8000_0000;

/// The nodes of a store, in the order in which they were added, at most 2^31. Clauses see the list. A node is looked
/// for from the first one on: a store has few.
#[derive(Drop)]
pub struct NodeTable {
    states: Vec<NodeState>,
}

impl Model for NodeTable {
    ghost use Rattle.std.specs.Prelude.{List};
    ghost use Rattle.shelf.specs.declared.node_table.NodeState.{NodeState};

    ghost Value = { List NodeState };

    ghost view = { λ table. table.states.items };

    ghost use Rattle.std.specs.Prelude.{◌^◌, ◌≤◌, vec_len};

    ghost invariant = { λ table. vec_len table.states ≤ 2 ^ 31 };
}

impl NodeTable {
    pub fn new(alloc: Global) -> NodeTable
        ensures { result ≡ [] }
    {
        NodeTable {
            states: Vec::new(alloc),
        }
    }

    /// How many nodes are not dead.
    pub fn living(&self) -> u32
        ensures living { result ≡ living self.now }
        ensures few { result ≤ 2 ^ 31 }
    {
        self.states.iter().filter(|state| !state.is_dead).count() as u32
    }

    pub fn has(&self, node: NodeId) -> bool
        ensures { result ≡ has_node node self.now }
    {
        self.states.iter().any(|state| state.id == node)
    }

    /// Adds a node that is not initialised. Without memory the table is as before.
    pub fn add(&mut self, node: NodeId) -> Result<(), AllocError>
        ensures ok { OnOk result (self.new ≡ self.old ++ record { id = node; is_ready = false; is_dead = false; died = None } ∷ []) }
        ensures err { OnErr result (self.new ≡ self.old) }
    {
        if self.states.len() >= MOST_NODES {
            return Err(AllocError);
        }
        self.states.push(NodeState {
            id: node,
            is_ready: false,
            is_dead: false,
            died: None,
        })?;
        Ok(())
    }

    /// The state of the node, if it is there.
    pub fn state_of(&self, node: NodeId) -> Option<NodeState>
        ensures { result ≡ state_of node self.now }
    {
        self.states.iter().find(|state| state.id == node).copied()
    }

    /// The node is there, and initialised.
    pub fn is_ready(&self, node: NodeId) -> bool
        ensures { result ≡ has_ready node self.now }
    {
        self.state_of(node).is_some_and(|state| state.is_ready)
    }

    /// The node is there, and dead.
    pub fn is_dead(&self, node: NodeId) -> bool
        ensures { result ≡ has_dead node self.now }
    {
        self.state_of(node).is_some_and(|state| state.is_dead)
    }

    /// The node is initialised from now on.
    pub fn make_ready(&mut self, node: NodeId)
        ensures { self.new ≡ changed node initialised self.old }
    {
        if let Some(place) = self.place_of(node) {
            self.states[place].is_ready = true;
        }
    }

    /// The node dies by the entry at this place.
    pub fn kill(&mut self, node: NodeId, at: u64)
        ensures { self.new ≡ changed node (killed at) self.old }
    {
        if let Some(place) = self.place_of(node) {
            let state = &mut self.states[place];
            state.is_ready = false;
            state.is_dead = true;
            state.died = Some(at);
        }
    }

    /// The node lives again. It is not initialised: no dead node is.
    pub fn revive(&mut self, node: NodeId)
        ensures { self.new ≡ changed node revived self.old }
    {
        if let Some(place) = self.place_of(node) {
            self.states[place].is_dead = false;
        }
    }

    /// The index of the node.
    fn place_of(&self, node: NodeId) -> Option<usize>
        ensures { result ≡ position (λ state. is_node state.id node) self.now }
    {
        self.states.iter().position(|state| state.id == node)
    }
}
