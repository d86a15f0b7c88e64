ghost use Rattle.std.specs.Prelude.{◌≡◌, true, false};
ghost use Rattle.hist_journal.specs.Folds.{raises_of};
ghost use Rattle.hist_journal.specs.Nodes.{is_dead};
ghost use Rattle.shelf.specs.AddsNode.{is_among};
ghost use Rattle.step_table.specs.Calls as at;
ghost use Rattle.step_table.specs.Calls.{Ask, step_at};
ghost use Rattle.shelf.specs.ShelfSeen.{shelf_seen};
ghost use Rattle.node_core.specs.Initialising.{IsInitialising};
ghost use Rattle.node_core.specs.Steps.{InitSteps, is_finished, is_last};
ghost use Rattle.node_core.specs.Views.{init_seen};

use super::{InitCall, Initialised};
use crate::origin::Origin;
use crate::reading::read_main;
use shelf::{Parts, Shelf};
use std::alloc::Global;
use store_traits::Step;

impl<P: Parts> InitCall<P> {
    /// The next step of a call of this origin, which owns the lock, whatever it asks for.
    pub fn step(self, origin: Origin, alloc: Global, shelf: &mut Shelf<P>) -> Initialised<P>
        requires node { is_among origin.call.node (shelf_seen shelf.old).store.nodes ≡ true }
        requires ready { IsInitialising P.C.Codec P.T.Transform P.F.Folder origin self (shelf_seen shelf.old) }
        requires lives { is_dead origin.call.node (shelf_seen shelf.old).list ≡ false }
        ensures steps { (ask : Ask P.T) → InitSteps P.C.Codec P.T.Transform P.F.Folder origin ask (init_seen ask self) (shelf_seen shelf.old) result (shelf_seen shelf.new) }
        ensures finished { is_finished result ≡ is_last self }
        ensures raises { raises_of (shelf_seen shelf.new).list ≡ raises_of (shelf_seen shelf.old).list }
    {
        match self {
            InitCall::Read => read_first(origin, alloc, shelf),
            // There are no migrations yet.
            InitCall::Migrate { value: _value } => Initialised::Moved(InitCall::Finish),
            InitCall::Finish => finish(origin, shelf),
        }
    }

    pub fn at_step(&self) -> Step
        ensures { (ask : Ask P.T) → result ≡ step_at true (init_seen ask self.now) }
    {
        match self {
            InitCall::Read => Step::I2,
            InitCall::Migrate { value: _ } => Step::I3,
            InitCall::Finish => Step::I6,
        }
    }

    /// The step ends the initialisation.
    pub fn is_last(&self) -> bool
        ensures { result ≡ is_last self.now }
    {
        matches!(self, InitCall::Finish)
    }
}

fn read_first<P: Parts>(origin: Origin, alloc: Global, shelf: &mut Shelf<P>) -> Initialised<P>
    requires ready { IsInitialising {P = P} P.C.Codec P.T.Transform P.F.Folder origin InitCall.Read (shelf_seen shelf.old) }
    requires lives { is_dead origin.call.node (shelf_seen shelf.old).list ≡ false }
    ensures finished { is_finished result ≡ false }
    ensures steps { (ask : Ask P.T) → InitSteps P.C.Codec P.T.Transform P.F.Folder origin ask (at.Reading at.Initialise ask) (shelf_seen shelf.old) result (shelf_seen shelf.new) }
    ensures raises { raises_of (shelf_seen shelf.new).list ≡ raises_of (shelf_seen shelf.old).list }
{
    match read_main(origin, alloc, shelf) {
        Ok(given) => Initialised::Moved(InitCall::Migrate { value: given.value }),
        Err(error) => Initialised::Ended(error),
    }
}

fn finish<P: Parts>(origin: Origin, shelf: &mut Shelf<P>) -> Initialised<P>
    requires node { is_among origin.call.node (shelf_seen shelf.old).store.nodes ≡ true }
    requires ready { IsInitialising {P = P} P.C.Codec P.T.Transform P.F.Folder origin InitCall.Finish (shelf_seen shelf.old) }
    requires lives { is_dead origin.call.node (shelf_seen shelf.old).list ≡ false }
    ensures finished { is_finished result ≡ true }
    ensures steps { (ask : Ask P.T) → InitSteps P.C.Codec P.T.Transform P.F.Folder origin ask (at.Finishing ask) (shelf_seen shelf.old) result (shelf_seen shelf.new) }
    ensures raises { raises_of (shelf_seen shelf.new).list ≡ raises_of (shelf_seen shelf.old).list }
{
    shelf.finish_init(origin.call);
    Initialised::Finished
}
