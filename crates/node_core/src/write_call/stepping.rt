ghost use Rattle.std.specs.Prelude.{◌≡◌, false, None};
ghost use Rattle.hist_journal.specs.Folds.{raises_of};
ghost use Rattle.hist_journal.specs.Nodes.{is_dead};
ghost use Rattle.step_table.specs.Caching.{published_by};
ghost use Rattle.step_table.specs.Calls as at;
ghost use Rattle.shelf.specs.ShelfSeen.{shelf_seen};
ghost use Rattle.step_table.specs.Rows.{filling};
ghost use Rattle.node_core.specs.Ready.{Ready};
ghost use Rattle.node_core.specs.Steps.{WriteSteps, gave_written, kept_written};
ghost use Rattle.node_core.specs.Views.{changing, unwritten, whole, filled, world_seen, write_seen};

use super::{WriteCall, Written};
use crate::change::Change;
use crate::origin::Origin;
use scratch_rename::{Filled, Fresh, Synced};
use shelf::{Parts, Shelf};
use store_traits::Word;
use value_cache::CachedValue;

impl<P: Parts> WriteCall<P> {
    /// The next step of a call of this origin, which owns the lock.
    pub fn step<W: Word>(self, origin: Origin, shelf: &mut Shelf<P>, word: &mut W) -> Written<P>
        requires word { W.ready (W.made word.old) }
        requires number { W.number word.old ≡ raises_of (shelf_seen shelf.old).list }
        requires ready { Ready P.C.Codec P.T.Transform P.F.Folder origin (write_seen self) (shelf_seen shelf.old) }
        requires lives { is_dead origin.call.node (shelf_seen shelf.old).list ≡ false }
        ensures steps { WriteSteps P.C.Codec P.T.Transform P.F.Folder origin (write_seen self) (shelf_seen shelf.old) result (shelf_seen shelf.new) }
        ensures published { kept_written result ≡ published_by (write_seen self) (gave_written result) (world_seen P.F.Folder (shelf_seen shelf.new)) }
        ensures number { W.number word.new ≡ raises_of (shelf_seen shelf.new).list }
        ensures made { W.made word.new ≡ W.made word.old }
    {
        match self {
            WriteCall::Raise { plan, change } => raise(origin, shelf, word, plan, change),
            WriteCall::Create { plan, change } => create(origin, shelf, plan, change),
            WriteCall::Append { plan, change } => append(origin, shelf, plan, change),
            WriteCall::SyncScratch { plan, change } => sync_scratch(origin, shelf, plan, change),
            WriteCall::Rename { plan, change } => rename(origin, shelf, word, plan, change),
        }
    }
}

/// The version word is raised, before anybody can see another value.
fn raise<P: Parts, W: Word>(
    origin: Origin,
    shelf: &mut Shelf<P>,
    word: &mut W,
    plan: Fresh,
    change: Change<P>,
) -> Written<P>
    requires word { W.ready (W.made word.old) }
    requires number { W.number word.old ≡ raises_of (shelf_seen shelf.old).list }
    requires ready { Ready P.C.Codec P.T.Transform P.F.Folder origin (at.Raising (unwritten (changing change) plan)) (shelf_seen shelf.old) }
    requires lives { is_dead origin.call.node (shelf_seen shelf.old).list ≡ false }
    ensures steps { WriteSteps P.C.Codec P.T.Transform P.F.Folder origin (at.Raising (unwritten (changing change) plan)) (shelf_seen shelf.old) result (shelf_seen shelf.new) }
    ensures unpublished { kept_written result ≡ None }
    ensures number { W.number word.new ≡ raises_of (shelf_seen shelf.new).list }
    ensures made { W.made word.new ≡ W.made word.old }
{
    shelf.raise(word, origin.call);
    Written::Moved(WriteCall::Create { plan, change })
}

fn create<P: Parts>(
    origin: Origin,
    shelf: &mut Shelf<P>,
    plan: Fresh,
    change: Change<P>,
) -> Written<P>
    requires ready { Ready P.C.Codec P.T.Transform P.F.Folder origin (at.Writing at.Creating (unwritten (changing change) plan)) (shelf_seen shelf.old) }
    requires lives { is_dead origin.call.node (shelf_seen shelf.old).list ≡ false }
    ensures steps { WriteSteps P.C.Codec P.T.Transform P.F.Folder origin (at.Writing at.Creating (unwritten (changing change) plan)) (shelf_seen shelf.old) result (shelf_seen shelf.new) }
    ensures unpublished { kept_written result ≡ None }
    ensures raises { raises_of (shelf_seen shelf.new).list ≡ raises_of (shelf_seen shelf.old).list }
{
    match shelf.create(origin.call, plan) {
        Ok(plan) => Written::Moved(filling(plan, change)),
        Err(at) => Written::Faulted { at },
    }
}

fn append<P: Parts>(
    origin: Origin,
    shelf: &mut Shelf<P>,
    plan: Filled,
    change: Change<P>,
) -> Written<P>
    requires ready { Ready P.C.Codec P.T.Transform P.F.Folder origin (at.Writing at.Appending (filled (changing change) plan)) (shelf_seen shelf.old) }
    requires lives { is_dead origin.call.node (shelf_seen shelf.old).list ≡ false }
    ensures steps { WriteSteps P.C.Codec P.T.Transform P.F.Folder origin (at.Writing at.Appending (filled (changing change) plan)) (shelf_seen shelf.old) result (shelf_seen shelf.new) }
    ensures unpublished { kept_written result ≡ None }
    ensures raises { raises_of (shelf_seen shelf.new).list ≡ raises_of (shelf_seen shelf.old).list }
{
    match shelf.append(origin.call, plan) {
        Ok(plan) => Written::Moved(filling(plan, change)),
        Err(at) => Written::Faulted { at },
    }
}

fn sync_scratch<P: Parts>(
    origin: Origin,
    shelf: &mut Shelf<P>,
    plan: Filled,
    change: Change<P>,
) -> Written<P>
    requires ready { Ready P.C.Codec P.T.Transform P.F.Folder origin (at.Writing at.SyncingScratch (filled (changing change) plan)) (shelf_seen shelf.old) }
    requires lives { is_dead origin.call.node (shelf_seen shelf.old).list ≡ false }
    ensures steps { WriteSteps P.C.Codec P.T.Transform P.F.Folder origin (at.Writing at.SyncingScratch (filled (changing change) plan)) (shelf_seen shelf.old) result (shelf_seen shelf.new) }
    ensures unpublished { kept_written result ≡ None }
    ensures raises { raises_of (shelf_seen shelf.new).list ≡ raises_of (shelf_seen shelf.old).list }
{
    match shelf.sync_scratch(origin.call, plan) {
        Ok(plan) => Written::Moved(WriteCall::Rename { plan, change }),
        Err(at) => Written::Faulted { at },
    }
}

fn rename<P: Parts, W: Word>(
    origin: Origin,
    shelf: &mut Shelf<P>,
    word: &mut W,
    plan: Synced,
    change: Change<P>,
) -> Written<P>
    requires word { W.ready (W.made word.old) }
    requires number { W.number word.old ≡ raises_of (shelf_seen shelf.old).list }
    requires ready { Ready P.C.Codec P.T.Transform P.F.Folder origin (at.Writing at.Renaming (whole (changing change) plan)) (shelf_seen shelf.old) }
    requires lives { is_dead origin.call.node (shelf_seen shelf.old).list ≡ false }
    ensures steps { WriteSteps P.C.Codec P.T.Transform P.F.Folder origin (at.Writing at.Renaming (whole (changing change) plan)) (shelf_seen shelf.old) result (shelf_seen shelf.new) }
    ensures published { kept_written result ≡ published_by (at.Writing at.Renaming (whole (changing change) plan)) (gave_written result) (world_seen P.F.Folder (shelf_seen shelf.new)) }
    ensures number { W.number word.new ≡ raises_of (shelf_seen shelf.new).list }
    ensures made { W.made word.new ≡ W.made word.old }
{
    let Change { kind, value } = change;
    match shelf.rename(origin.call, plan, kind) {
        Ok(_renamed) => Written::Changed {
            at: shelf.journal().len(),
            kept: CachedValue::new(word.load(), shelf.edition(), value),
        },
        Err(at) => Written::Faulted { at },
    }
}

/// The next step of a scratch file that has these bytes.
fn filling<P: Parts>(plan: Filled, change: Change<P>) -> WriteCall<P>
    ensures { write_seen result ≡ filling (filled (changing change) plan) }
{
    if plan.rest() > 0 {
        WriteCall::Append { plan, change }
    } else {
        WriteCall::SyncScratch { plan, change }
    }
}
