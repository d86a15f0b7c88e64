ghost use Rattle.std.specs.Prelude.{◌≡◌, OnOk, IfErr};
ghost use Rattle.store_traits.specs.declared.applied.Applied.TheVariants.{Changed};
ghost use Rattle.prefs_edit.specs.Step.{after_step};
ghost use Rattle.prefs_edit.specs.Stop.{IsStopOf};

use crate::EditStep;
use crate::kinds::{int_at, long_at};
use crate::set::set;
use crate::stop::{OUT_OF_RANGE, Stop, WRONG_KIND};
use prefs_model::{PrefKey, PrefMap, PrefValue};
use std::alloc::Global;

/// Raises the Int at the key.
#[tactic(auto, unfolding(crate::specs::Step::after_step))]
pub fn add_int(alloc: Global, map: &mut PrefMap, key: &PrefKey, amount: i32) -> Result<(), Stop>
    ensures changed { OnOk result (after_step (EditStep.AddInt key.now amount) map.old ≡ Changed map.new) }
    ensures stopped { IfErr result (IsStopOf (after_step (EditStep.AddInt key.now amount) map.old)) }
{
    let Some(int) = int_at(map, key) else {
        return Err(Stop::Code(WRONG_KIND));
    };
    let Some(sum) = int.checked_add(amount) else {
        return Err(Stop::Code(OUT_OF_RANGE));
    };
    set(alloc, map, key, PrefValue::Int(sum))?;
    Ok(())
}

/// Raises the Long at the key.
#[tactic(auto, unfolding(crate::specs::Step::after_step))]
pub fn add_long(alloc: Global, map: &mut PrefMap, key: &PrefKey, amount: i64) -> Result<(), Stop>
    ensures changed { OnOk result (after_step (EditStep.AddLong key.now amount) map.old ≡ Changed map.new) }
    ensures stopped { IfErr result (IsStopOf (after_step (EditStep.AddLong key.now amount) map.old)) }
{
    let Some(long) = long_at(map, key) else {
        return Err(Stop::Code(WRONG_KIND));
    };
    let Some(sum) = long.checked_add(amount) else {
        return Err(Stop::Code(OUT_OF_RANGE));
    };
    set(alloc, map, key, PrefValue::Long(sum))?;
    Ok(())
}
