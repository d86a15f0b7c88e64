ghost use Rattle.std.specs.Prelude.{◌≡◌, IfErr, IfOk, IsTrue};
ghost use Rattle.hist_journal.specs.Folds.{raises_of};
ghost use Rattle.shelf.specs.ShelfSeen.{shelf_seen};
ghost use Rattle.shelf.specs.ShelfTurns.{IsRaised, MayFault};
ghost use Rattle.node_core.specs.ReadMain.{HasRead, ReadFails};
ghost use Rattle.node_core.specs.Step.{SparesRoom};

use crate::origin::Origin;
use shelf::{Loaded, Parts, Shelf, ValueOf};
use std::alloc::Global;
use store_traits::{Given, ReadError};

/// What main is. Without an answer the call ends, and owns nothing.
pub fn read_main<P: Parts>(
    origin: Origin,
    alloc: Global,
    shelf: &mut Shelf<P>,
) -> Result<Given<ValueOf<P>>, ReadError>
    requires lawful { IsTrue P.F.told → MayFault P.T.after origin.call (shelf_seen shelf.old) }
    requires unraised { IsRaised origin.call (shelf_seen shelf.old) → ⊥ }
    ensures ok { IfOk result (λ given. HasRead P.C.Codec P.T.Transform P.F.Folder origin given (shelf_seen shelf.old) (shelf_seen shelf.new)) }
    ensures err { IfErr result (λ error. ReadFails P.C.Codec P.T.Transform P.F.Folder origin error (shelf_seen shelf.old) (shelf_seen shelf.new)) }
    // What is kept for another owner of the lock stays.
    ensures spares { SparesRoom P.C.Codec P.T.Transform P.F.Folder origin (shelf_seen shelf.old) (shelf_seen shelf.new) }
    ensures raises { raises_of (shelf_seen shelf.new).list ≡ raises_of (shelf_seen shelf.old).list }
{
    let error = match shelf.read_main(alloc, origin.call) {
        Loaded::Value(given) => return Ok(given),
        Loaded::Faulted { at } => return Err(ReadError::StorageFault { at }),
        Loaded::Corrupt => ReadError::Corrupt,
        Loaded::TooLong { len } => ReadError::FileTooLong { len },
        Loaded::NoMemory => ReadError::NoMemory,
    };
    shelf.free(origin.call);
    Err(error)
}
