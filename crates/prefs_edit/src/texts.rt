ghost use Rattle.std.specs.Prelude.{◌≡◌, OnOk, IfErr};
ghost use Rattle.store_traits.specs.declared.applied.Applied.TheVariants.{Changed};
ghost use Rattle.prefs_edit.specs.Step.{after_step};
ghost use Rattle.prefs_edit.specs.Stop.{IsStopOf};

use crate::EditStep;
use crate::kinds::texts_at;
use crate::set::set;
use crate::stop::{Stop, WRONG_KIND};
use prefs_model::{PrefKey, PrefMap, PrefText, PrefValue};
use std::alloc::Global;

/// Adds a text to the set at the key.
#[tactic(auto, unfolding(crate::specs::Step::after_step))]
pub fn insert_text(
    alloc: Global,
    map: &mut PrefMap,
    key: &PrefKey,
    text: &PrefText,
) -> Result<(), Stop>
    ensures changed { OnOk result (after_step (EditStep.InsertText key.now text.now) map.old ≡ Changed map.new) }
    ensures stopped { IfErr result (IsStopOf (after_step (EditStep.InsertText key.now text.now) map.old)) }
{
    let Some(mut texts) = texts_at(alloc, map, key)? else {
        return Err(Stop::Code(WRONG_KIND));
    };
    texts.insert(text.try_clone(alloc)?)?;
    set(alloc, map, key, PrefValue::Texts(texts))?;
    Ok(())
}

/// Takes a text out of the set at the key.
#[tactic(auto, unfolding(crate::specs::Step::after_step))]
pub fn remove_text(
    alloc: Global,
    map: &mut PrefMap,
    key: &PrefKey,
    text: &PrefText,
) -> Result<(), Stop>
    ensures changed { OnOk result (after_step (EditStep.RemoveText key.now text.now) map.old ≡ Changed map.new) }
    ensures stopped { IfErr result (IsStopOf (after_step (EditStep.RemoveText key.now text.now) map.old)) }
{
    let Some(mut texts) = texts_at(alloc, map, key)? else {
        return Err(Stop::Code(WRONG_KIND));
    };
    // A missing key stays missing: it gets no empty set.
    let Some(_) = map.get(key) else {
        return Ok(());
    };
    texts.remove(text);
    set(alloc, map, key, PrefValue::Texts(texts))?;
    Ok(())
}
