use crate::{RunLine, Series};
use folder_disk::Planned;
use shelf::PlannedDeath;

/// What happens in one session.
#[derive(Drop)]
pub struct SessionPlan {
    pub folder_faults: Series<Planned>,
    /// After so many calls of the folder each fails.
    pub fuse: Option<u64>,
    pub deaths: Series<PlannedDeath>,
    /// In the order in which they stand.
    pub lines: Series<RunLine>,
    /// The session ends by a stop of the machine, which leaves this image of the folder.
    pub stop: Option<u32>,
}
