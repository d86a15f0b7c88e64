use crate::{DeathPlan, Parts};
use hist_journal::Bounds;

/// What a shelf is made with, beside its folder and what main reads as.
#[derive(Drop)]
pub struct Setup<P: Parts> {
    pub codec: P::C,
    /// How many bytes main may have.
    pub limit: u64,
    /// When the history is full.
    pub bounds: Bounds,
    /// Which calls kill their node, and before which step.
    pub deaths: DeathPlan,
}
