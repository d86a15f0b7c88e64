use crate::{Device, PrefName, Sections};
use std::sync::Arc;
use store_traits::NodeId;

/// What an entry says.
#[derive(Drop)]
pub enum Kind<V, T> {
    /// The version was raised.
    Raise,
    /// Main is what the transform made of it.
    Edit(T),
    /// The transform makes of main what main is already.
    Same(T),
    /// Main is this value, in place of an unreadable file.
    Replace(Arc<V>),
    /// Main is this value, which took these old settings over.
    Migrate(Sections, Arc<V>),
    /// Main is on the disk.
    Synced,
    /// This section of the old settings is empty.
    Cleared(PrefName),
    /// The node is initialised.
    Inited(NodeId),
    /// The device failed, and has so many faults now.
    Fault(Device, u64),
    /// The node died.
    Death(NodeId),
    /// The node lives again.
    Restart(NodeId),
}
