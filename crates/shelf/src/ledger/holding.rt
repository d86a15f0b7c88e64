ghost use Rattle.std.specs.Prelude.{◌≡◌, ◌≢◌, ◌+◌, ◌-◌, ◌≤◌, ◌∷◌, [], Some, None, true, OnOk, ◌↔◌};
ghost use Rattle.file_lock.specs.Owner.{IsAnother};
ghost use Rattle.hist_journal.specs.declared.seen.KindSeen.TheVariants.{Inited};
ghost use Rattle.hist_journal.specs.Quiet.{pending};
ghost use Rattle.shelf.specs.Ledger.{freed, ledger_seen, freed_room, Enters};
ghost use Rattle.shelf.specs.NodeStates.{has_node, living};
ghost use Rattle.hist_journal.specs.Nodes.{is_ready};
ghost use Rattle.shelf.specs.Takes.{most_entries, needs_lock, TakeRow};

use super::Ledger;
use crate::{Taken, Want};
use hist_journal::{Entry, Kind, ReserveError};
use std::alloc::AllocError;
use store_traits::CallId;

/// The most entries that a holding can add which initialises its node: an Inited or a Fault.
const MOST_OF_INIT: u16 = 1;

/// The most that an update can: a Raise, an Edit, and a Synced or a Fault.
const MOST_OF_UPDATE: u16 = 3;

/// The most that a read can: a Fault.
const MOST_OF_READ: u16 = 1;

impl<V: Drop, T: Drop> Ledger<V, T> {
    /// Takes the lock, with room for the most entries that this holding can add, beside the room of each living node's next Death. A
    /// read of a node that is initialised is held up by no bound, and goes on without the lock where another call owns it.
    pub fn take(&mut self, call: CallId, want: Want) -> Taken
        ensures { TakeRow call want result (ledger_seen self.old) (ledger_seen self.new) }
    {
        if want == Want::Read && self.nodes.is_ready(call.node) {
            return self.take_if_free(call);
        }
        self.take_within_bounds(call, want)
    }

    /// Of a call that has to own the lock, and may add entries as long as no bound is reached.
    fn take_within_bounds(&mut self, call: CallId, want: Want) -> Taken
        requires lock { needs_lock want (is_ready call.node self.old.journal.list) ≡ true }
        ensures { TakeRow call want result (ledger_seen self.old) (ledger_seen self.new) }
    {
        if self.is_taken_from(call) {
            return Taken::Blocked;
        }
        let is_ready = self.nodes.is_ready(call.node);
        let most = most_entries(want, is_ready);
        match self.journal.reserve(self.nodes.living() + u32::from(most)) {
            Ok(()) => {
                self.lock.try_lock(call);
                self.reserved = most;
                if is_ready { Taken::Held } else { Taken::Init }
            }
            Err(ReserveError::HistoryFull { entries, weight }) => Taken::HistoryFull {
                entries,
                weight,
            },
            Err(ReserveError::NoMemory) => Taken::NoMemory,
        }
    }

    /// Of a read of a node that is initialised.
    fn take_if_free(&mut self, call: CallId) -> Taken
        requires ready { is_ready call.node self.old.journal.list ≡ true }
        ensures { TakeRow call Want.Read result (ledger_seen self.old) (ledger_seen self.new) }
    {
        if self.make_room(call).is_err() {
            return Taken::NoMemory;
        }
        if self.is_taken_from(call) {
            return Taken::Unlocked;
        }
        self.lock.try_lock(call);
        self.reserved = MOST_OF_READ;
        Taken::Held
    }

    /// Makes room for one entry of a call, beside all that is kept for others, also where the history is full. The owner of
    /// the lock has it already, where it may still add an entry.
    pub fn make_room(&mut self, call: CallId) -> Result<(), AllocError>
        ensures room { OnOk result (freed_room call self.old.lock self.old.reserved + living self.old.nodes + 1 ≤ self.new.journal.room) }
        ensures same { ledger_seen self.new ≡ ledger_seen self.old }
        ensures nodes { self.new.nodes ≡ self.old.nodes }
    {
        if self.reserved >= 1 && self.is_owner(call) {
            return Ok(());
        }
        self.journal
            .reserve_past(u32::from(self.reserved) + self.nodes.living() + 1)
    }

    /// Frees the lock, if this call owns it.
    pub fn free(&mut self, call: CallId)
        requires ended { pending self.old.journal.list ≢ Some call }
        ensures { Enters call [] 0 (freed call self.old.lock) (freed_room call self.old.lock self.old.reserved) (ledger_seen self.old) (ledger_seen self.new) }
    {
        if self.is_owner(call) {
            self.lock.release(call);
            self.reserved = 0;
        }
    }

    /// The node is initialised, and the lock is free.
    pub fn finish_init(&mut self, call: CallId)
        requires owner { self.old.lock ≡ Some call }
        requires ended { pending self.old.journal.list ≢ Some call }
        requires room { 1 ≤ self.old.reserved }
        requires node { has_node call.node self.old.nodes ≡ true }
        ensures { Enters call (Inited call.node ∷ []) 0 None 0 (ledger_seen self.old) (ledger_seen self.new) }
    {
        self.journal.push(
            Entry {
                who: call,
                kind: Kind::Inited(call.node),
            },
            0,
        );
        self.nodes.make_ready(call.node);
        self.lock.release(call);
        self.reserved = 0;
    }

    /// This call owns the lock.
    pub(super) fn is_owner(&self, call: CallId) -> bool
        ensures { (result ≡ true) ↔ (self.now.lock ≡ Some call) }
    {
        self.lock.owner() == Some(call)
    }

    /// Another call owns the lock.
    fn is_taken_from(&self, call: CallId) -> bool
        ensures { (result ≡ true) ↔ IsAnother self.now.lock call }
    {
        self.lock.owner().is_some_and(|owner| owner != call)
    }
}

fn most_entries(want: Want, is_ready: bool) -> u16
    ensures { result ≡ most_entries want is_ready }
{
    match want {
        _ if !is_ready => MOST_OF_INIT,
        Want::Update => MOST_OF_UPDATE,
        Want::Read => MOST_OF_READ,
    }
}
