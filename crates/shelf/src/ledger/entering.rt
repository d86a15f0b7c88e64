ghost use Rattle.std.specs.Prelude.{◌≡◌, ◌+◌, ◌-◌, ◌≤◌, ◌∷◌, [], Some, true, length, if◌then◌else◌};
ghost use Rattle.hist_journal.specs.declared.device.Device.TheVariants.{Folder};
ghost use Rattle.hist_journal.specs.declared.seen.KindSeen.TheVariants.{Fault};
ghost use Rattle.hist_journal.specs.Kinds.{is_change};
ghost use Rattle.hist_journal.specs.View.{kind_seen};
ghost use Rattle.shelf.specs.Ledger.{freed, ledger_seen, freed_room, is_inner, Enters};
ghost use Rattle.shelf.specs.NodeStates.{living};

use super::Ledger;
use hist_journal::{Device, Entry, Kind};
use store_traits::CallId;

impl<V: Drop, T: Drop> Ledger<V, T> {
    /// Adds an entry of the lock's owner, of this weight.
    pub fn add(&mut self, call: CallId, kind: Kind<V, T>, weight: u64)
        requires owner { self.old.lock ≡ Some call }
        requires room { 1 ≤ self.old.reserved }
        requires kind { is_inner (kind_seen kind) ≡ true }
        ensures { Enters call (kind_seen kind ∷ []) weight self.old.lock (self.old.reserved - 1) (ledger_seen self.old) (ledger_seen self.new) }
    {
        let editions = editions_of(&kind);
        self.journal.push(Entry { who: call, kind }, weight);
        // The number of entries fits, so that of the value changes does.
        let _entries = self.journal.len();
        self.edition += editions;
        self.reserved -= 1;
    }

    /// Adds a Fault of the folder with this count, and frees the lock if this call owns it. Answers the place of the entry.
    pub fn add_fault(&mut self, call: CallId, count: u64) -> u64
        requires room { freed_room call self.old.lock self.old.reserved + living self.old.nodes + 1 ≤ self.old.journal.room }
        ensures place { result ≡ length self.old.journal.list + 1 }
        ensures entry { Enters call (Fault Folder count ∷ []) 0 (freed call self.old.lock) (freed_room call self.old.lock self.old.reserved) (ledger_seen self.old) (ledger_seen self.new) }
    {
        let is_owner = self.is_owner(call);
        self.journal.push(
            Entry {
                who: call,
                kind: Kind::Fault(Device::Folder, count),
            },
            0,
        );
        let place = self.journal.len();
        if is_owner {
            self.lock.release(call);
            self.reserved = 0;
        }
        place
    }
}

/// How many editions an entry of this kind adds.
fn editions_of<V, T>(kind: &Kind<V, T>) -> u64
    ensures { result ≡ (if is_change (kind_seen kind.now) then 1 else 0) }
{
    match kind {
        Kind::Edit(_) | Kind::Replace(_) | Kind::Migrate(_, _) => 1,
        _ => 0,
    }
}
