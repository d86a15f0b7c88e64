ghost use Rattle.std.specs.Prelude.{◌≡◌, IfErr, IfOk};
ghost use Rattle.hist_journal.specs.Folds.{raises_of};
ghost use Rattle.shelf.specs.ShelfSeen.{shelf_seen};
ghost use Rattle.shelf.specs.ShelfTurns.{IsRaised};
ghost use Rattle.step_table.specs.Calls as at;
ghost use Rattle.step_table.specs.Calls.{Ask, want_of};
ghost use Rattle.step_table.specs.declared.progress.Progress.TheVariants.{Ended};
ghost use Rattle.node_core.specs.Locking.{LockSteps};
ghost use Rattle.node_core.specs.Step.{SparesRoom};
ghost use Rattle.node_core.specs.Steps.{Steps, as_update};

use crate::origin::Origin;
use shelf::{Parts, Shelf, Taken, Want};
use std::alloc::Global;
use store_traits::ReadError;

/// What a first turn gives a call that goes on.
#[derive(Clone, Copy, Debug, PartialEq, Eq)]
pub enum Locked {
    /// The lock, to initialise the node.
    Initialise,
    /// The lock, to serve the call.
    Held,
    /// Leave to read without the lock.
    Unlocked,
    /// Nothing: another call owns the lock.
    Blocked,
}

/// The lock is taken, where the call needs it and it is free. Without an answer the call ends, and owns nothing.
pub fn lock<P: Parts>(
    origin: Origin,
    alloc: Global,
    shelf: &mut Shelf<P>,
    want: Want,
) -> Result<Locked, ReadError>
    requires unraised { IsRaised origin.call (shelf_seen shelf.old) → ⊥ }
    ensures ok { IfOk result (λ locked. (ask : Ask P.T) → want_of ask ≡ want → LockSteps P.C.Codec P.T.Transform P.F.Folder origin ask (shelf_seen shelf.old) locked (shelf_seen shelf.new)) }
    // Only a read goes on without the lock.
    ensures unlocked { IfOk result (λ locked. locked ≡ Locked.Unlocked → want ≡ Want.Read) }
    ensures err { IfErr result (λ error. (ask : Ask P.T) → want_of ask ≡ want → Steps P.C.Codec P.T.Transform P.F.Folder origin (at.First ask) (shelf_seen shelf.old) (Ended (at.Failed (as_update error))) at.Gone (shelf_seen shelf.new)) }
    // What is kept for another owner of the lock stays.
    ensures spares { SparesRoom P.C.Codec P.T.Transform P.F.Folder origin (shelf_seen shelf.old) (shelf_seen shelf.new) }
    ensures raises { raises_of (shelf_seen shelf.new).list ≡ raises_of (shelf_seen shelf.old).list }
{
    let error = match shelf.take(alloc, origin.call, want) {
        Taken::Init => return Ok(Locked::Initialise),
        Taken::Held => return Ok(Locked::Held),
        Taken::Unlocked => return Ok(Locked::Unlocked),
        Taken::Blocked => return Ok(Locked::Blocked),
        Taken::HistoryFull { entries, weight } => ReadError::HistoryFull { entries, weight },
        Taken::NoMemory => ReadError::NoMemory,
    };
    shelf.free(origin.call);
    Err(error)
}
