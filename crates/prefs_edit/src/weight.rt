//! What edits weigh. Each sum stands still at the greatest `u64`.
ghost use Rattle.std.specs.Prelude.{◌≡◌, ◌-◌, ◌+◌, ◌^◌, min, length, sum_by};
ghost use Rattle.prefs_edit.specs.Weight.{edit_weight, step_weight, value_weight};

use crate::EditStep;
use prefs_model::{PrefKey, PrefText, PrefValue};

const STEP_WEIGHT: u64 = 16;

const NUMBER_WEIGHT: u64 = 8;

const SET_WEIGHT: u64 = 4;

/// The weight of all steps.
pub fn weight_of_steps(steps: &[EditStep]) -> u64
    ensures { result ≡ min (edit_weight steps.now) (2 ^ 64 - 1) }
{
    let mut weight = 0u64;
    for step in steps {
        weight = weight.saturating_add(weight_of_step(step));
    }
    weight
}

#[tactic(auto, unfolding(crate::specs::Weight::step_weight))]
fn weight_of_step(step: &EditStep) -> u64
    ensures { result ≡ min (step_weight step.now) (2 ^ 64 - 1) }
{
    match step {
        EditStep::Set { key, value } | EditStep::Require { key, value } => {
            weight_with(key, weight_of_value(value))
        }
        EditStep::Remove { key } | EditStep::Toggle { key } => weight_with(key, 0),
        EditStep::Clear => STEP_WEIGHT,
        EditStep::AddInt { key, .. } | EditStep::AddLong { key, .. } => {
            weight_with(key, NUMBER_WEIGHT)
        }
        EditStep::InsertText { key, text } | EditStep::RemoveText { key, text } => {
            weight_with(key, text.as_str().len() as u64)
        }
    }
}

// The weight of a step on this key whose rest weighs this much.
fn weight_with(key: &PrefKey, rest: u64) -> u64
    ensures { result ≡ min (16 + length key.now + rest) (2 ^ 64 - 1) }
{
    STEP_WEIGHT
        .saturating_add(key.as_str().len() as u64)
        .saturating_add(rest)
}

fn weight_of_value(value: &PrefValue) -> u64
    ensures { result ≡ min (value_weight value.now) (2 ^ 64 - 1) }
{
    match value {
        PrefValue::Text(text) => text.as_str().len() as u64,
        PrefValue::Texts(set) => SET_WEIGHT.saturating_add(weight_of_texts(set.texts())),
        _ => NUMBER_WEIGHT,
    }
}

fn weight_of_texts(texts: &[PrefText]) -> u64
    ensures { result ≡ min (sum_by length texts.now) (2 ^ 64 - 1) }
{
    let mut weight = 0u64;
    for text in texts {
        weight = weight.saturating_add(text.as_str().len() as u64);
    }
    weight
}
