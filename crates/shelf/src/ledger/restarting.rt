ghost use Rattle.std.specs.Prelude.{◌≡◌, ◌≢◌, Some};
ghost use Rattle.hist_journal.specs.Quiet.{pending};
ghost use Rattle.shelf.specs.Ledger.{freed, freed_room, ledger_seen};
ghost use Rattle.shelf.specs.Reviving.{ReviveRow};

use super::Ledger;
use crate::RestartError;
use hist_journal::{Entry, Kind};
use store_traits::{CallId, NodeId};

impl<V: Drop, T: Drop> Ledger<V, T> {
    /// Brings a dead node back, not initialised, with room for its next Death. The call owns nothing then. Answers the
    /// place of the Restart.
    pub fn restart(&mut self, call: CallId, node: NodeId) -> Result<u64, RestartError>
        requires ended { pending self.old.journal.list ≢ Some call }
        ensures { ReviveRow call node (freed call self.old.lock) (freed_room call self.old.lock self.old.reserved) result (ledger_seen self.old) (ledger_seen self.new) }
    {
        let result = self.revive(call, node);
        self.free(call);
        result
    }

    /// The same, but for what the call owns.
    fn revive(&mut self, call: CallId, node: NodeId) -> Result<u64, RestartError>
        ensures row { ReviveRow call node self.old.lock self.old.reserved result (ledger_seen self.old) (ledger_seen self.new) }
        ensures pending { pending self.new.journal.list ≡ pending self.old.journal.list }
    {
        if !self.nodes.is_dead(node) {
            return Err(RestartError::NotDead);
        }
        // For the Restart, and for the next Death of the node.
        self.journal
            .reserve_past(u32::from(self.reserved) + self.nodes.living() + 2)?;
        self.journal.push(
            Entry {
                who: call,
                kind: Kind::Restart(node),
            },
            0,
        );
        self.nodes.revive(node);
        Ok(self.journal.len())
    }
}
