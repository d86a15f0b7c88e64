ghost use Rattle.std.specs.Prelude.{◌≡◌, ◌∷◌, [], true, false, IsTrue};
ghost use Rattle.hist_journal.specs.declared.seen.KindSeen.TheVariants as kind;
ghost use Rattle.shelf.specs.AddsNode.{is_among};
ghost use Rattle.shelf.specs.Deaths.{has_died, turn_step};
ghost use Rattle.shelf.specs.Dying.{BeginRow};
ghost use Rattle.shelf.specs.ShelfSeen.{shelf_seen};
ghost use Rattle.shelf.specs.ShelfTurns.{IsRaised, Frees, May};
ghost use Rattle.shelf.specs.Takes.{TakeRow};
ghost use Rattle.shelf.specs.Ledger.{ledger_seen};

use super::Shelf;
use crate::{Parts, Taken, Want};
use std::alloc::Global;
use store_traits::{CallId, Step};

impl<P: Parts> Shelf<P> {
    /// The death test of a turn: the place of the Death that ends the call, if one does. Its node has died, since its earliest
    /// turn began or for good, and nothing changes; or a death is planned for this step, which kills the node now. `since` is
    /// how many entries there were when the call's earliest turn began, if that is past. A first turn is told as `U1` or
    /// `V2`, and is taken as `I1` where the node is not initialised.
    pub fn begin(&mut self, call: CallId, step: Step, since: Option<u64>) -> Option<u64>
        requires node { is_among call.node (shelf_seen self.old).store.nodes ≡ true }
        requires lawful { IsTrue P.F.told → has_died call.node since (shelf_seen self.old).list ≡ false → May P.T.after call (kind.Death call.node ∷ []) (shelf_seen self.old) }
        ensures { BeginRow call step since result (shelf_seen self.old) (shelf_seen self.new) }
    {
        if let Some(at) = self.ledger.death_since(call.node, since) {
            return Some(at);
        }
        let step = turn_step(step, self.ledger.is_ready(call.node));
        if self.deaths.strike(call, step) {
            return Some(self.ledger.die(call));
        }
        None
    }

    /// Takes the lock, with room for the most entries that this holding can add. A read of a node that is initialised is
    /// held up by no bound, and goes on without the lock where another call owns it.
    pub fn take(&mut self, alloc: Global, call: CallId, want: Want) -> Taken
        ensures row { TakeRow call want result (ledger_seen self.old.ledger) (ledger_seen self.new.ledger) }
        ensures deaths { self.new.deaths ≡ self.old.deaths }
        ensures codec { self.new.codec ≡ self.old.codec }
        ensures folder { self.new.folder ≡ self.old.folder }
        ensures store { (shelf_seen self.new).store ≡ (shelf_seen self.old).store }
    {
        let _alloc = alloc;
        self.ledger.take(call, want)
    }

    /// Frees the lock, if this call owns it.
    pub fn free(&mut self, call: CallId)
        requires ended { IsRaised call (shelf_seen self.old) → ⊥ }
        ensures turn { Frees call [] (shelf_seen self.old) (shelf_seen self.new) }
        ensures folder { self.new.folder ≡ self.old.folder }
    {
        self.ledger.free(call);
    }
}

/// The step that a turn is: a first turn of a node that is not initialised begins to initialise it.
fn turn_step(step: Step, is_ready: bool) -> Step
    ensures { result ≡ turn_step is_ready step }
{
    match step {
        Step::U1 | Step::V2 if !is_ready => Step::I1,
        _ => step,
    }
}
