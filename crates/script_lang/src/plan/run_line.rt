use prefs_edit::Edit;
use store_traits::{ClientId, NodeId};

/// A line that a client follows.
#[derive(Drop)]
pub struct RunLine {
    pub client: ClientId,
    pub act: Act,
}

/// What a client is to do.
#[derive(Drop)]
pub enum Act {
    Update(Edit),
    Read,
    Flow,
    Post(Edit),
    /// Brings a dead node back.
    Restart(NodeId),
    /// Does so many steps, 1,000 at most.
    Go(u32),
}
