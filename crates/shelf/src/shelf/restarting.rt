ghost use Rattle.std.specs.Prelude.{◌≡◌, ◌∷◌, [], true, false, None, IsTrue};
ghost use Rattle.hist_journal.specs.declared.seen.KindSeen.TheVariants as kind;
ghost use Rattle.hist_journal.specs.Nodes.{is_dead};
ghost use Rattle.shelf.specs.AddsNode.{is_among};
ghost use Rattle.shelf.specs.Deaths.{has_died};
ghost use Rattle.shelf.specs.Restarting.{RestartRow};
ghost use Rattle.shelf.specs.ShelfSeen.{shelf_seen};
ghost use Rattle.shelf.specs.ShelfTurns.{IsRaised, May};

use super::Shelf;
use crate::{Parts, RestartError};
use std::alloc::Global;
use store_traits::{CallId, NodeId, Step};

impl<P: Parts> Shelf<P> {
    /// Brings a dead node back, not initialised, with room for its next Death. It is the one turn of its call. Answers the
    /// place of the Restart.
    pub fn restart(
        &mut self,
        alloc: Global,
        call: CallId,
        node: NodeId,
    ) -> Result<u64, RestartError>
        requires home { is_among call.node (shelf_seen self.old).store.nodes ≡ true }
        requires node { is_among node (shelf_seen self.old).store.nodes ≡ true }
        requires ended { IsRaised call (shelf_seen self.old) → ⊥ }
        requires dies { IsTrue P.F.told → has_died call.node None (shelf_seen self.old).list ≡ false → May P.T.after call (kind.Death call.node ∷ []) (shelf_seen self.old) }
        requires lawful { IsTrue P.F.told → has_died call.node None (shelf_seen self.old).list ≡ false → is_dead node (shelf_seen self.old).list ≡ true → May P.T.after call (kind.Restart node ∷ []) (shelf_seen self.old) }
        ensures row { RestartRow call node result (shelf_seen self.old) (shelf_seen self.new) }
        ensures folder { self.new.folder ≡ self.old.folder }
    {
        let _alloc = alloc;
        if let Some(at) = self.begin(call, Step::R1, None) {
            return Err(RestartError::Died { at });
        }
        self.ledger.restart(call, node)
    }
}
