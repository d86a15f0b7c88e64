ghost use Rattle.std.specs.Prelude.{◌≡◌, length, IfOk, IfSome, IsTrue};
ghost use Rattle.folder_disk.specs.Room.{HasRoomFor};
ghost use Rattle.shelf.specs.ShelfSeen.{shelf_seen};
ghost use Rattle.node_core.specs.Applying.{AppliedRow};
ghost use Rattle.node_core.specs.Ready.{rules_seen};

use scratch_rename::Fresh;
use shelf::{Parts, PlanMade, Shelf, ValueOf};
use std::alloc::Global;
use std::sync::Arc;
use store_traits::{Applied, Codec, Given, Transform, UpdateError};

/// Another value that an edit made, and the plan of its text.
#[derive(Drop)]
pub struct Made<V> {
    pub plan: Fresh,
    pub value: Arc<V>,
}

/// What is to be written once the edit is applied to the value that was read: none where it keeps that value.
pub fn apply<P: Parts>(
    alloc: Global,
    shelf: &mut Shelf<P>,
    given: &Given<ValueOf<P>>,
    edit: &P::T,
) -> Result<Option<Made<ValueOf<P>>>, UpdateError>
    ensures row { AppliedRow (rules_seen P.C.Codec P.T.Transform P.F.Folder (shelf_seen shelf.old)) (P.C.is_value shelf.old.codec) (shelf_seen shelf.old).store given.now.value.value edit.now given.now.edition result }
    ensures room { IfOk result (λ made. IfSome made (λ made. HasRoomFor (length made.plan) (P.F.room shelf.new.folder))) }
    ensures same { shelf_seen shelf.new ≡ record (shelf_seen shelf.old) { folder = shelf.new.folder } }
    ensures contents { IsTrue P.F.told → P.F.contents shelf.new.folder ≡ P.F.contents shelf.old.folder }
    ensures tally { P.F.tally shelf.new.folder ≡ P.F.tally shelf.old.folder }
{
    let new = match edit.apply(alloc, &given.value) {
        Ok(Applied::Changed(new)) => new,
        Ok(Applied::Refused(code)) => return Err(UpdateError::Refused {
            code,
            edition: given.edition,
        }),
        Err(_) => return Err(UpdateError::NoMemory),
    };
    if shelf.codec().equal(&new, &given.value) {
        return Ok(None);
    }
    let plan = match shelf.make_plan(alloc, &new) {
        PlanMade::Plan(plan) => plan,
        PlanMade::TooLong { len } => return Err(UpdateError::ValueTooLong { len }),
        PlanMade::NoMemory => return Err(UpdateError::NoMemory),
    };
    match Arc::new(alloc, new) {
        Ok(value) => Ok(Some(Made { plan, value })),
        Err(_) => Err(UpdateError::NoMemory),
    }
}
