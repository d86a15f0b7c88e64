use crate::init_call::InitCall;
use crate::origin::Origin;
use crate::write_call::WriteCall;
use shelf::{Parts, ValueOf};
use value_cache::CachedValue;

mod at_step;
mod step;
mod stepping;

/// An update in progress.
#[derive(Drop)]
pub struct UpdateCall<P: Parts> {
    origin: Origin,
    /// The call has initialised its node.
    initialised: bool,
    state: State<P>,
}

/// The next step, with what the call carries to it.
#[derive(Drop)]
pub enum State<P: Parts> {
    /// The lock is to be taken.
    First {
        edit: P::T,
    },
    /// The node is to be initialised first.
    Initialise {
        edit: P::T,
        init: InitCall<P>,
    },
    /// Main is to be read, and the edit applied to its value.
    Read {
        edit: P::T,
    },
    /// The new value is to be written.
    Write {
        write: WriteCall<P>,
    },
    /// The folder is to be synced, behind the value change at this place, whose value is still to be published.
    SyncChanged {
        at: u64,
        kept: Option<CachedValue<ValueOf<P>>>,
    },
    /// The folder is to be synced, for an edit that kept the value.
    SyncKept {
        edit: P::T,
    },
    /// The call has ended.
    Gone,
}
