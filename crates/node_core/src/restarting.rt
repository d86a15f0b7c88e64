ghost use Rattle.std.specs.Prelude.{◌≡◌, true, false, length, None, Some, IsTrue};
ghost use Rattle.std.specs.List.{list_any};
ghost use Rattle.store_traits.specs.declared.ids.CallId.{CallId};
ghost use Rattle.hist_journal.specs.Folds.{raises_of};
ghost use Rattle.hist_journal.specs.Quiet.{pending};
ghost use Rattle.shelf.specs.AddsNode.{is_among};
ghost use Rattle.shelf.specs.CallOrder.{is_later};
ghost use Rattle.shelf.specs.Kept.{KeptMain};
ghost use Rattle.shelf.specs.Meanwhile.{NoneOf};
ghost use Rattle.shelf.specs.ShelfSeen.{shelf_seen};
ghost use Rattle.step_table.specs.Calls.{Gone, Restarting};
ghost use Rattle.step_table.specs.declared.progress.Progress.TheVariants.{Ended};
ghost use Rattle.node_core.specs.Ready.{rules_seen};
ghost use Rattle.node_core.specs.Restarting.{reply_of_restart};
ghost use Rattle.node_core.specs.Step.{StepsTo};

use shelf::{Parts, RestartError, Shelf};
use std::alloc::Global;
use store_traits::{CallId, NodeId};

/// Brings a dead node back, in one turn, by a call of which nothing was told.
pub fn restart<P: Parts>(
    alloc: Global,
    shelf: &mut Shelf<P>,
    call: CallId,
    node: NodeId,
) -> Result<u64, RestartError>
    requires home { is_among call.node (shelf_seen shelf.old).store.nodes ≡ true }
    requires node { is_among node (shelf_seen shelf.old).store.nodes ≡ true }
    requires fresh { NoneOf call (shelf_seen shelf.old).list }
    requires numbers { list_any (is_later call) (shelf_seen shelf.old).list ≡ false }
    ensures steps { StepsTo P.C.Codec P.T.Transform P.F.Folder (record { call = call; since = None }) (Restarting node) (shelf_seen shelf.old) (Ended (reply_of_restart result)) (record { call = call; since = Some (length (shelf_seen shelf.old).list) }) Gone (shelf_seen shelf.new) }
    // The history stays lawful, and main what it makes of it; no raise is open but that of the lock's owner.
    ensures kept { IsTrue P.F.told → ∥ KeptMain (rules_seen P.C.Codec P.T.Transform P.F.Folder (shelf_seen shelf.new)) (P.C.is_value shelf.new.codec) (shelf_seen shelf.new).store (P.F.contents shelf.new.folder) (shelf_seen shelf.new).list ∥₁ }
    ensures quiet { (other : CallId) → pending (shelf_seen shelf.new).list ≡ Some other → (shelf_seen shelf.new).owner ≡ Some other }
    ensures raises { raises_of (shelf_seen shelf.new).list ≡ raises_of (shelf_seen shelf.old).list }
{
    shelf.restart(alloc, call, node)
}
