use crate::init_call::InitCall;
use crate::origin::Origin;
use shelf::{Parts, ValueOf};
use value_cache::CachedValue;

mod at_step;
mod look;
mod step;
mod stepping;

/// A read in progress.
#[derive(Drop)]
pub struct ReadCall<P: Parts> {
    origin: Origin,
    /// The call has initialised its node.
    initialised: bool,
    state: ReadState<P>,
}

/// The next step, with what the call carries to it.
#[derive(Drop)]
pub enum ReadState<P: Parts> {
    /// The cache may still be looked in, and the lock is to be taken.
    Look,
    /// The lock is to be taken, if it is free.
    First,
    /// The node is to be initialised first.
    Initialise {
        init: InitCall<P>,
    },
    /// Main is to be read under the lock.
    Locked,
    /// Main is to be read without the lock.
    Unlocked,
    /// The call has ended; what it read under the lock is still to be published.
    Gone {
        kept: Option<CachedValue<ValueOf<P>>>,
    },
}
