ghost use Rattle.std.specs.Prelude.{◌≡◌, IfOk};
ghost use Rattle.std.specs.List.{list_any};
ghost use Rattle.shelf.specs.Deaths.{strikes, used_up};

use crate::PlannedDeath;
use std::alloc::{AllocError, Global};
use std::collections::BTreeSet;
use std::marker::Model;
use store_traits::{CallId, Step};

/// The deaths that are planned for a session, and which of them are not used up.
#[derive(Drop)]
pub struct DeathPlan {
    planned: Vec<PlannedDeath>,
    left: BTreeSet<PlannedDeath, Global>,
}

impl Model for DeathPlan {
    ghost use Rattle.shelf.specs.DeathPlan.{DeathPlanSeen};

    ghost Value = { DeathPlanSeen };

    ghost use Rattle.std.specs.Prelude.{◌≡◌, true, filter};
    ghost use Rattle.shelf.specs.declared.store.PlannedDeath.{PlannedDeath};
    ghost use Rattle.shelf.specs.DeathPlan.{is_one_of};

    ghost view = { λ plan. record { planned = plan.planned.items; left = filter (is_one_of plan.left.keys) plan.planned.items } };

    ghost invariant = { λ plan. (death : PlannedDeath) → is_one_of plan.left.keys death ≡ true → is_one_of plan.planned.items death ≡ true };
}

impl DeathPlan {
    /// None of these deaths is used up.
    pub fn new(alloc: Global, planned: Vec<PlannedDeath>) -> Result<DeathPlan, AllocError>
        ensures { IfOk result (λ plan. plan ≡ record { planned = planned.items; left = planned.items }) }
    {
        let mut left = BTreeSet::new(alloc);
        for death in &planned {
            left.insert(*death)?;
        }
        Ok(DeathPlan { planned, left })
    }

    /// Whether a death is planned for this call before this step. Then it is used up.
    pub(crate) fn strike(&mut self, call: CallId, step: Step) -> bool
        ensures struck { result ≡ list_any (strikes call step) self.old.left }
        ensures left { self.new ≡ record self.old { left = used_up call step self.old.left } }
    {
        self.left.remove(&PlannedDeath { call, step })
    }
}
