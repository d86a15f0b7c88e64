use prefs_edit::Edit;
use store_traits::NodeId;

/// What a client is asked for. The edit of an update stays in the script.
#[derive(Clone, Copy)]
pub(crate) enum Task<'s> {
    Update(&'s Edit),
    Read,
    /// Brings this node back.
    Restart(NodeId),
}
