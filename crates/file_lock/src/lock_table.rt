ghost use Rattle.std.specs.Prelude.{◌≡◌, ◌↔◌, Some, None, false};
ghost use Rattle.std.specs.Bool.{OnTrue, OnFalse};
ghost use Rattle.file_lock.specs.Owner.{IsAnother, freed_node};

use std::marker::Model;
use store_traits::{CallId, NodeId};

/// The lock, which one call owns at most. Clauses see the owner. No call of it takes memory.
#[derive(Debug, Drop)]
pub struct LockTable {
    owner: Option<CallId>,
}

impl Model for LockTable {
    ghost use Rattle.std.specs.Prelude.{Option};
    ghost use Rattle.store_traits.specs.declared.ids.CallId.{CallId};

    ghost Value = { Option CallId };

    ghost view = { λ table. table.owner };
}

impl LockTable {
    /// A lock that is free.
    pub fn new() -> LockTable
        ensures { result ≡ None }
    {
        LockTable { owner: None }
    }

    /// Takes the lock, if no other call owns it. The owner may take it again.
    pub fn try_lock(&mut self, call: CallId) -> bool
        ensures refused { (result ≡ false) ↔ IsAnother self.old call }
        ensures taken { OnTrue result (self.new ≡ Some call) }
        ensures same { OnFalse result (self.new ≡ self.old) }
    {
        if self.owner.is_some_and(|owner| owner != call) {
            return false;
        }
        self.owner = Some(call);
        true
    }

    /// Frees the lock.
    pub fn release(&mut self, call: CallId)
        requires { self.old ≡ Some call }
        ensures { self.new ≡ None }
    {
        let _owner = call;
        self.owner = None;
    }

    /// Frees the lock, if a call of this node owns it.
    pub fn free_node(&mut self, node: NodeId)
        ensures { self.new ≡ freed_node node self.old }
    {
        if self.owner.is_some_and(|owner| owner.node == node) {
            self.owner = None;
        }
    }

    pub fn owner(&self) -> Option<CallId>
        ensures { result ≡ self.now }
    {
        self.owner
    }
}
