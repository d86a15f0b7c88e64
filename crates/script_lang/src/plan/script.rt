use crate::{Series, SessionPlan, Start};
use prefs_text::Names;
use store_traits::NodeId;

/// What a script asks for.
#[derive(Drop)]
pub struct Script {
    pub names: Names,
    /// The node of each client, in the order of the clients.
    pub homes: Series<NodeId>,
    pub start: Start,
    /// A stop of the machine stands between two sessions.
    pub sessions: Series<SessionPlan>,
}
