ghost use Rattle.std.specs.Prelude.{◌≡◌, ◌≤◌, ◌<◌, ◌-◌, ◌^◌, ◌==◌, ◌||◌};
ghost use Rattle.std.specs.List.{list_any};
ghost use Rattle.store_traits.specs.Faults.{Counts};
ghost use Rattle.byte_io.specs.Memory.{PlanSeen, fresh_plan, is_planned, after_call};

use std::marker::Model;
use store_traits::FaultCount;

/// Which calls of a device in memory fail, by their numbers from 1 on. Clauses see them, how many calls
/// were made, and the count of faults.
#[derive(Drop)]
pub(crate) struct FaultPlan {
    failing: Vec<u32>,
    calls: u64,
    faults: FaultCount,
}

impl Model for FaultPlan {
    ghost Value = { PlanSeen };

    ghost view = { λ plan. record { failing = plan.failing.items; calls = plan.calls; faults = plan.faults } };
}

impl FaultPlan {
    pub(crate) fn new(failing: Vec<u32>) -> FaultPlan
        ensures { result ≡ fresh_plan failing.items }
    {
        FaultPlan {
            failing,
            calls: 0,
            faults: FaultCount::new(),
        }
    }

    /// Counts one more call, which also fails where it `cannot` succeed, and says whether it fails.
    pub(crate) fn fails(&mut self, cannot: bool) -> bool
        ensures failed { result ≡ (is_planned self.old || cannot) }
        ensures after { self.new ≡ after_call result self.old }
        ensures faults { Counts result self.old.faults self.new.faults }
        ensures fits { self.new.faults ≤ 2 ^ 64 - 1 }
    {
        self.calls = self.calls.saturating_add(1);
        let has_failed = is_listed(&self.failing, self.calls) || cannot;
        self.faults.count(has_failed);
        has_failed
    }
}

// Whether the call of this number is one of those that fail.
fn is_listed(failing: &[u32], call: u64) -> bool
    ensures { result ≡ list_any (λ number. number == call) failing.now }
{
    failing.iter().any(|number| u64::from(*number) == call)
}
