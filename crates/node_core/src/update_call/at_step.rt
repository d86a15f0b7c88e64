ghost use Rattle.std.specs.Prelude.{◌≡◌, true, if◌then◌else◌};
ghost use Rattle.step_table.specs.Calls.{step_at};
ghost use Rattle.node_core.specs.Views.{state_seen, write_seen};

use super::{State, UpdateCall};
use crate::write_call::WriteCall;
use shelf::Parts;
use store_traits::Step;

impl<P: Parts> UpdateCall<P> {
    /// The next step. A first turn is told as `I1` before this call has initialised its node, and as `U1` behind it; so is
    /// a call that has ended as `I1`, since it has none.
    pub fn at_step(&self) -> Step
        ensures { result ≡ step_at self.now.initialised (state_seen self.now.state) }
    {
        self.step_where(self.initialised)
    }

    /// The next step, where the node is initialised or is not.
    pub(super) fn step_where(&self, ready: bool) -> Step
        ensures { result ≡ step_at ready (state_seen self.now.state) }
    {
        match &self.state {
            State::First { edit: _ } => first_step(ready),
            State::Initialise { edit: _, init } => init.at_step(),
            State::Read { edit: _ } => Step::U2,
            State::Write { write } => write.at_step(),
            State::SyncChanged { at: _, kept: _ } | State::SyncKept { edit: _ } => Step::U8,
            State::Gone => Step::I1,
        }
    }
}

fn first_step(ready: bool) -> Step
    ensures { result ≡ (if ready then Step.U1 else Step.I1) }
{
    if ready { Step::U1 } else { Step::I1 }
}

impl<P: Parts> WriteCall<P> {
    fn at_step(&self) -> Step
        ensures { result ≡ step_at true (write_seen self.now) }
    {
        match self {
            WriteCall::Raise { plan: _, change: _ } => Step::U3,
            WriteCall::Create { plan: _, change: _ } => Step::U4,
            WriteCall::Append { plan: _, change: _ } => Step::U5,
            WriteCall::SyncScratch { plan: _, change: _ } => Step::U6,
            WriteCall::Rename { plan: _, change: _ } => Step::U7,
        }
    }
}
