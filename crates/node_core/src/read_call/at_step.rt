ghost use Rattle.std.specs.Prelude.{◌≡◌, true, if◌then◌else◌};
ghost use Rattle.step_table.specs.Calls.{step_at};
ghost use Rattle.node_core.specs.Looking.{read_step};
ghost use Rattle.node_core.specs.Views.{read_seen};

use super::{ReadCall, ReadState};
use shelf::Parts;
use store_traits::Step;

impl<P: Parts> ReadCall<P> {
    /// The next step. A read is at `V1` until it has looked or stepped. A first turn is told as `I1` before this call has
    /// initialised its node, and as `V2` behind it; so is a call that has ended as `I1`, since it has none.
    pub fn at_step(&self) -> Step
        ensures { result ≡ read_step self.now.initialised self.now.state }
    {
        match &self.state {
            ReadState::Look => Step::V1,
            _ => self.step_where(self.initialised),
        }
    }

    /// The next turn, where the node is initialised or is not.
    pub(super) fn step_where(&self, ready: bool) -> Step
        ensures { result ≡ step_at ready (read_seen self.now.state) }
    {
        match &self.state {
            ReadState::Look | ReadState::First => first_step(ready),
            ReadState::Initialise { init } => init.at_step(),
            ReadState::Locked | ReadState::Unlocked => Step::V3,
            ReadState::Gone { kept: _ } => Step::I1,
        }
    }
}

fn first_step(ready: bool) -> Step
    ensures { result ≡ (if ready then Step.V2 else Step.I1) }
{
    if ready { Step::V2 } else { Step::I1 }
}
