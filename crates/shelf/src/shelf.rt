ghost use Rattle.std.specs.Prelude.{◌<◌, ◌^◌};
ghost use Rattle.shelf.specs.Kept.{Kept};
ghost use Rattle.shelf.specs.StoreSeen.{store_with};
ghost use Rattle.shelf.specs.Rules.{rules_of};

use crate::ledger::Ledger;
use crate::{DeathPlan, Parts, ValueOf};
use folder_disk::Folder;
use store_traits::{Codec, Transform};

mod finishing;
mod locking;
mod opening;
mod reading;
mod restarting;
mod weighing;
mod writing;

/// The state that the nodes of a store share: its folder, its history and its lock.
///
/// Whoever has it takes a turn with it. At the end of each turn its history is lawful and main is what the history makes
/// of it, where the folder tells what it holds, and no raise is open but that of the lock's owner.
#[derive(Drop)]
pub struct Shelf<P: Parts> {
    codec: P::C,
    folder: P::F,
    /// How many bytes main may have.
    limit: u64,
    /// The folder's count of faults when the session began.
    first_faults: u64,
    deaths: DeathPlan,
    ledger: Ledger<ValueOf<P>, P::T>,
    pub ghost low_limit: { limit < 2 ^ 63 },
    pub ghost kept: { ∥ Kept
        (rules_of P.T.after P.T.weight_of (P.C.encoded codec) (P.C.reads codec) (P.C.default_of codec))
        (P.C.is_value codec)
        (store_with P.F.told (P.F.contents folder) (P.F.tally folder) limit first_faults deaths.planned ledger.journal ledger.nodes)
        P.F.told
        (P.F.contents folder)
        (P.F.tally folder).count
        ledger.journal.weight
        ledger.journal.list ∥₁ },
}
