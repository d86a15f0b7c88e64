//! What contracts see of a store: all that stays the same in a session. No value of `Store` is made.
use hist_journal::{BaseSeen, Bounds, PrefName};
use prefs_model::PrefMap;
use std::collections::LinkedList;
use store_traits::{CallId, FileBytes, NodeId, Step};

/// A store as it was at the start of its session. `V` are its values, and `M` its migrations.
pub struct Store<V, M> {
    /// What main read as.
    pub base: BaseSeen<V>,
    pub nodes: LinkedList<NodeId>,
    /// The value that takes the place of an unreadable file; none where nothing does.
    pub handler: Option<V>,
    pub migrations: LinkedList<M>,
    pub limits: Limits,
    /// Used up or not.
    pub deaths: LinkedList<PlannedDeath>,
    /// None where there was no file.
    pub main: Option<FileBytes>,
    /// The old settings. A section that is not among them is empty.
    pub sections: LinkedList<SectionSeen>,
    pub folder: DeviceStart,
    pub legacy: DeviceStart,
    /// A machine stop could have left nothing but main.
    pub alone: bool,
}

/// How long a file may be, in bytes, and when a history is full.
pub struct Limits {
    pub file: u64,
    pub history: Bounds,
}

/// This call kills its node before its first such step.
#[derive(Clone, Copy, Debug, PartialEq, Eq, PartialOrd, Ord)]
pub struct PlannedDeath {
    pub call: CallId,
    pub step: Step,
}

/// A section of the old settings.
pub struct SectionSeen {
    pub name: PrefName,
    pub pairs: PrefMap,
}

/// What a device told of its faults at the start.
pub struct DeviceStart {
    pub count: u64,
    /// What the count does not pass in this session; none where nothing is known of that.
    pub most: Option<u64>,
}
