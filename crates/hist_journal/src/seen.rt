//! What contracts see of a history: values where entries have their owners. No value of these types is made.
use crate::{Bounds, Device, PrefName, Sections};
use store_traits::{CallId, NodeId};

/// A `Kind` with its value in place of the value's owner.
pub enum KindSeen<V, T> {
    Raise,
    Edit(T),
    Same(T),
    Replace(V),
    Migrate(Sections, V),
    Synced,
    Cleared(PrefName),
    Inited(NodeId),
    Fault(Device, u64),
    Death(NodeId),
    Restart(NodeId),
}

/// An `Entry` as contracts see it.
pub struct EntrySeen<V, T> {
    pub who: CallId,
    pub kind: KindSeen<V, T>,
}

/// A `Base` with its value in place of the value's owner.
pub enum BaseSeen<V> {
    Held(V),
    Corrupt,
    TooLong(u64),
}

/// What stays the same of a journal for good.
pub struct JournalHead<V> {
    pub base: BaseSeen<V>,
    pub bounds: Bounds,
}
