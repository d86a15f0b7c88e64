use shelf::{Parts, ValueOf};
use std::sync::Arc;
use store_traits::ReadError;

mod stepping;

/// What a call that owns the lock has to do so that its node is initialised.
#[derive(Drop)]
pub enum InitCall<P: Parts> {
    /// Main is to be read.
    Read,
    /// Its value is to go through the migrations.
    Migrate { value: Arc<ValueOf<P>> },
    /// The node is to be told as initialised.
    Finish,
}

/// What a step of an initialisation gives.
#[derive(Drop)]
pub enum Initialised<P: Parts> {
    /// The initialisation goes on.
    Moved(InitCall<P>),
    /// The node is initialised, and the lock is free.
    Finished,
    /// The call has ended, and owns nothing.
    Ended(ReadError),
}
