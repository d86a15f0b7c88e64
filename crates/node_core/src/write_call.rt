use crate::change::Change;
use scratch_rename::{Filled, Fresh, Synced};
use shelf::{Parts, ValueOf};
use value_cache::CachedValue;

mod stepping;

/// A value change on its way to main: its text goes to the scratch file, and that takes main's place.
#[derive(Drop)]
pub enum WriteCall<P: Parts> {
    /// The version is to be raised.
    Raise { plan: Fresh, change: Change<P> },
    /// The scratch file is to be made.
    Create { plan: Fresh, change: Change<P> },
    /// Bytes are left to be appended.
    Append { plan: Filled, change: Change<P> },
    /// The scratch file is to be synced.
    SyncScratch { plan: Filled, change: Change<P> },
    /// It is to become main.
    Rename { plan: Synced, change: Change<P> },
}

/// What a step of a write gives.
#[derive(Drop)]
pub enum Written<P: Parts> {
    /// The write goes on.
    Moved(WriteCall<P>),
    /// Main is the new text, and the change is the entry at this place. Its value is to be published.
    Changed {
        at: u64,
        kept: CachedValue<ValueOf<P>>,
    },
    /// The folder failed, and its Fault is the entry at this place.
    Faulted {
        at: u64,
    },
}
