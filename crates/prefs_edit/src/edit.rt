ghost use Rattle.std.specs.Prelude.{◌≡◌, IfOk, OnOk, IfErr};
ghost use Rattle.prefs_edit.specs.Edit.{IsEdit, IsRefusalOf};

use crate::apply::apply_steps;
use crate::weight::weight_of_steps;
use crate::{EditError, EditStep};
use prefs_model::PrefMap;
use std::alloc::{AllocError, Global};
use std::marker::Model;
use store_traits::{Applied, Transform};

/// How many steps an edit has at the most.
pub const MAX_STEPS: usize = 16;

/// How much an edit weighs at the most.
pub const MAX_WEIGHT: u32 = 65_536;

/// A change of a map of settings in 1 to 16 steps, of weight 65,536 at the most. Clauses see the list of its steps.
#[derive(Drop)]
pub struct Edit {
    steps: Vec<EditStep>,
    weight: u32,
}

impl Model for Edit {
    ghost use Rattle.std.specs.Prelude.{List};
    ghost use Rattle.prefs_edit.specs.declared.edit_step.EditStep.{EditStep};
    ghost use Rattle.prefs_edit.specs.Edit.{HoldsEdit};

    ghost Value = { List EditStep };

    ghost view = { λ e. e.steps.items };

    ghost invariant = { λ e. HoldsEdit e.steps.items e.weight };
}

impl Edit {
    /// Takes no memory. The count is tested before the weight.
    pub fn new(steps: Vec<EditStep>) -> Result<Edit, EditError>
        ensures edit { IfOk result (λ edit. edit ≡ steps.items) }
        ensures within { OnOk result (IsEdit steps.items) }
        ensures refused { IfErr result (IsRefusalOf steps.items) }
    {
        let count = steps.len();
        if count == 0 || count > MAX_STEPS {
            return Err(EditError::Count {
                count: count as u64,
            });
        }
        let weight = weight_of_steps(&steps);
        if weight > u64::from(MAX_WEIGHT) {
            return Err(EditError::EditTooLong { weight });
        }
        Ok(Edit {
            steps,
            weight: weight as u32,
        })
    }

    /// The steps, in order.
    pub fn steps(&self) -> &[EditStep]
        ensures steps { result.now ≡ self.now }
        ensures edit { IsEdit self.now }
    {
        &self.steps
    }

    /// An equal edit.
    pub fn copy(&self, alloc: Global) -> Result<Edit, AllocError>
        ensures { IfOk result (λ edit. edit ≡ self.now) }
    {
        let steps = copy_of_steps(alloc, &self.steps)?;
        Ok(Edit {
            steps,
            weight: self.weight,
        })
    }
}

impl Transform for Edit {
    ghost use Rattle.prefs_edit.specs.After.{after_steps};
    ghost use Rattle.prefs_edit.specs.Weight.{edit_weight};

    type Value = PrefMap;

    ghost after = { after_steps };

    ghost weight_of = { edit_weight };

    /// Refuses with code 1 (a value of another kind), 2 (a sum out of range) or 3 (a required value is not there).
    fn apply(&self, alloc: Global, old: &PrefMap) -> Result<Applied<PrefMap>, AllocError> {
        apply_steps(alloc, &self.steps, old)
    }

    fn weight(&self) -> u32 {
        self.weight
    }
}

fn copy_of_steps(alloc: Global, steps: &[EditStep]) -> Result<Vec<EditStep>, AllocError>
    ensures { IfOk result (λ copy. copy.items ≡ steps.now) }
{
    let mut copy = Vec::with_capacity(alloc, steps.len())?;
    for step in steps {
        copy.push(step.try_clone(alloc)?)?;
    }
    Ok(copy)
}
