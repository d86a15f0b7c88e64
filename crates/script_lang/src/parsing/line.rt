use crate::RunLine;
use folder_disk::{MainRead, Planned};
use hist_journal::PrefName;
use shelf::PlannedDeath;
use store_traits::NodeId;

/// What a line of a script says.
#[derive(Drop)]
pub enum Line {
    /// It is empty, or a comment.
    Nothing,
    /// The file at the start.
    File(MainRead),
    /// How many entries a history may have before it is full.
    History(u64),
    /// A node.
    Node(PrefName),
    /// A client, and its node.
    Client(PrefName, NodeId),
    /// A call of the folder that is to fail.
    Fault(Planned),
    /// After so many calls of the folder each fails.
    Fuse(u64),
    /// A call that kills its node before such a step.
    Die(PlannedDeath),
    /// A call, or steps of a client.
    Run(RunLine),
}
