ghost use Rattle.std.specs.Prelude.{◌≡◌, ◌≤◌, ◌<◌, ◌+◌, ◌-◌, ◌^◌, true, min, length, [], IsTrue, IfSome, Some};
ghost use Rattle.std.specs.List.Sorted.{IsNonDecreasingBy};
ghost use Rattle.folder_disk.specs.Due.{count_of, in_order, is_planned, rank};
ghost use Rattle.folder_disk.specs.Planned.{left_to_strike, no_calls};
ghost use Rattle.folder_disk.specs.Tally.{Tally, Tallies, StartsTally};

use crate::{CallCounts, FolderCall, Planned};
use std::marker::Model;

/// The failures planned for a session in the order in which they are due, the calls made in it, and
/// the count of faults.
#[derive(Drop)]
pub(crate) struct FaultPlan {
    planned: Vec<Planned>,
    made: CallCounts,
    faults: u64,
    most: u64,
}

// What is planned and did not strike yet is counted in `most` already.
impl Model for FaultPlan {
    ghost Value = { Tally };

    ghost view = { λ p. record { count = p.faults; most = Some p.most; due = record { planned = p.planned.items; made = p.made; fuses = [] } } };

    ghost invariant = { λ p. IsNonDecreasingBy rank p.planned.items × (min (p.faults + left_to_strike p.made p.planned.items) (2 ^ 64 - 1) ≤ p.most) };
}

impl FaultPlan {
    pub(crate) fn new(planned: Vec<Planned>) -> FaultPlan
        ensures { result ≡ record { count = 0; most = Some (min (length planned.items) (2 ^ 64 - 1)); due = record { planned = in_order planned.items; made = no_calls; fuses = [] } } }
    {
        FaultPlan::after(0, planned)
    }

    // The plan of a session that begins once so many calls had failed.
    #[tactic(auto, using(crate::proofs::PlanLemmas::left_at_most, crate::proofs::OrderLemmas::length_in_order))]
    fn after(faults: u64, mut planned: Vec<Planned>) -> FaultPlan
        ensures { result ≡ record { count = faults; most = Some (min (faults + length planned.items) (2 ^ 64 - 1)); due = record { planned = in_order planned.items; made = no_calls; fuses = [] } } }
    {
        put_in_order(&mut planned);
        FaultPlan {
            most: faults.saturating_add(planned.len() as u64),
            planned,
            made: CallCounts::new(),
            faults,
        }
    }

    pub(crate) fn faults(&self) -> u64
        ensures count { result ≡ self.now.count }
        ensures within { IfSome self.now.most (λ most. result ≤ most) }
    {
        self.faults
    }

    #[tactic(auto, using(crate::proofs::PlanLemmas::left_at_most))]
    pub(crate) fn start(&mut self)
        ensures { StartsTally true self.old self.new }
    {
        self.most = self.faults.saturating_add(self.planned.len() as u64);
    }

    /// Plans these failures and no others. Call numbers begin anew, and the count of faults goes on.
    pub(crate) fn restart(&mut self, planned: Vec<Planned>)
        ensures { self.new ≡ record { count = self.old.count; most = Some (min (self.old.count + length planned.items) (2 ^ 64 - 1)); due = record { planned = in_order planned.items; made = no_calls; fuses = [] } } }
    {
        *self = FaultPlan::after(self.faults, planned);
    }

    /// Counts a call, and tells whether it is planned to fail, which is a fault more.
    #[tactic(auto, using(crate::proofs::PlanLemmas::left_when_struck, crate::proofs::PlanLemmas::left_when_passed))]
    pub(crate) fn strikes(&mut self, call: FolderCall) -> bool
        ensures { Tallies true call result self.old self.new }
    {
        let is_planned = is_next_planned(&self.planned, &self.made, call);
        self.made.count(call);
        if is_planned {
            self.faults = self.faults.saturating_add(1);
        }
        is_planned
    }
}

fn put_in_order(planned: &mut [Planned])
    ensures same { planned.new ≡ in_order planned.old }
    ensures rises { IsNonDecreasingBy rank planned.new }
    ensures len { length planned.new ≡ length planned.old }
{
    planned.sort_unstable_by_key(Planned::rank);
}

// Whether the next such call is planned to fail.
fn is_next_planned(planned: &[Planned], made: &CallCounts, call: FolderCall) -> bool
    requires { IsNonDecreasingBy rank planned.now }
    ensures planned { result ≡ is_planned call made.now planned.now }
    ensures bound { IsTrue result → count_of made.now call + 1 < 2 ^ 64 }
{
    let before = made.count_of(call);
    match planned.binary_search_by_key(&call.next_rank(before), Planned::rank) {
        Ok(at) => planned[at].is_next(call, before),
        Err(_) => false,
    }
}
