ghost use Rattle.std.specs.Prelude.{◌≡◌, OnOk, IfOk, IfErr};
ghost use Rattle.store_traits.specs.declared.applied.Applied.TheVariants.{Changed};
ghost use Rattle.prefs_edit.specs.After.{after_steps};
ghost use Rattle.prefs_edit.specs.Step.{after_step};
ghost use Rattle.prefs_edit.specs.Stop.{IsStopOf};

use crate::EditStep;
use crate::add::{add_int, add_long};
use crate::require::has_this;
use crate::set::set;
use crate::stop::{NOT_EQUAL, Stop};
use crate::texts::{insert_text, remove_text};
use crate::toggle::toggle;
use prefs_model::PrefMap;
use std::alloc::{AllocError, Global};
use store_traits::Applied;

/// Does the steps in order on one copy of the map, up to the first that refuses.
pub fn apply_steps(
    alloc: Global,
    steps: &[EditStep],
    old: &PrefMap,
) -> Result<Applied<PrefMap>, AllocError>
    ensures { IfOk result (λ applied. applied ≡ after_steps steps.now old.now) }
{
    let mut map = old.try_clone(alloc)?;
    for step in steps {
        match apply_step(alloc, step, &mut map) {
            Ok(()) => {}
            Err(Stop::Code(code)) => return Ok(Applied::Refused(code)),
            Err(Stop::NoMemory) => return Err(AllocError),
        }
    }
    Ok(Applied::Changed(map))
}

// Does one step in place. The map of a step that stops is of no use.
#[tactic(auto, unfolding(crate::specs::Step::after_step))]
fn apply_step(alloc: Global, step: &EditStep, map: &mut PrefMap) -> Result<(), Stop>
    ensures changed { OnOk result (after_step step.now map.old ≡ Changed map.new) }
    ensures stopped { IfErr result (IsStopOf (after_step step.now map.old)) }
{
    match step {
        EditStep::Set { key, value } => set(alloc, map, key, value.try_clone(alloc)?)?,
        EditStep::Remove { key } => {
            map.remove(key);
        }
        EditStep::Clear => map.clear(),
        EditStep::AddInt { key, amount } => add_int(alloc, map, key, *amount)?,
        EditStep::AddLong { key, amount } => add_long(alloc, map, key, *amount)?,
        EditStep::Toggle { key } => toggle(alloc, map, key)?,
        EditStep::InsertText { key, text } => insert_text(alloc, map, key, text)?,
        EditStep::RemoveText { key, text } => remove_text(alloc, map, key, text)?,
        EditStep::Require { key, value } => {
            if !has_this(map, key, value) {
                return Err(Stop::Code(NOT_EQUAL));
            }
        }
    }
    Ok(())
}
