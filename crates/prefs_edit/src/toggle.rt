ghost use Rattle.std.specs.Prelude.{◌≡◌, OnOk, IfErr};
ghost use Rattle.store_traits.specs.declared.applied.Applied.TheVariants.{Changed};
ghost use Rattle.prefs_edit.specs.Step.{after_step};
ghost use Rattle.prefs_edit.specs.Stop.{IsStopOf};

use crate::EditStep;
use crate::kinds::bool_at;
use crate::set::set;
use crate::stop::{Stop, WRONG_KIND};
use prefs_model::{PrefKey, PrefMap, PrefValue};
use std::alloc::Global;

/// Turns the Bool at the key over.
#[tactic(auto, unfolding(crate::specs::Step::after_step))]
pub fn toggle(alloc: Global, map: &mut PrefMap, key: &PrefKey) -> Result<(), Stop>
    ensures changed { OnOk result (after_step (EditStep.Toggle key.now) map.old ≡ Changed map.new) }
    ensures stopped { IfErr result (IsStopOf (after_step (EditStep.Toggle key.now) map.old)) }
{
    let Some(b) = bool_at(map, key) else {
        return Err(Stop::Code(WRONG_KIND));
    };
    set(alloc, map, key, PrefValue::Bool(!b))?;
    Ok(())
}
