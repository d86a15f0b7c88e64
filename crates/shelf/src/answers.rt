//! What the turns of a shelf answer, and what they are asked.
use scratch_rename::Fresh;
use std::alloc::AllocError;
use store_traits::Given;
use thiserror::Error;

/// What a call takes the lock for.
#[derive(Clone, Copy, Debug, PartialEq, Eq)]
pub enum Want {
    /// To change the value.
    Update,
    /// To read it. A node that is initialised can do so without the lock.
    Read,
}

/// What a call that takes the lock gets.
#[derive(Clone, Copy, Debug, PartialEq, Eq)]
pub enum Taken {
    /// The lock, and the node is not initialised yet.
    Init,
    /// The lock, and the node is initialised.
    Held,
    /// Nothing, and none is needed: another call owns the lock, and a read of an initialised node goes on without it.
    Unlocked,
    /// Another call owns the lock, and this one has to wait for it.
    Blocked,
    /// The history has so many entries of such a weight, and one of the two has reached its bound.
    HistoryFull { entries: u64, weight: u64 },
    NoMemory,
}

/// What a read of main gives.
#[derive(Drop)]
pub enum Loaded<V> {
    Value(Given<V>),
    /// Main's bytes read as no value.
    Corrupt,
    /// Main has so many bytes, which passes the limit.
    TooLong { len: u64 },
    /// The folder failed, and its Fault is the entry at this place.
    Faulted { at: u64 },
    NoMemory,
}

/// What comes of a value that is to be written.
#[derive(Drop)]
pub enum PlanMade {
    Plan(Fresh),
    /// The value is written in so many bytes, which passes the limit.
    TooLong { len: u64 },
    NoMemory,
}

/// Why a node is not added.
#[derive(Clone, Copy, Debug, PartialEq, Eq, Error)]
pub enum AddNodeError {
    #[error("the store has this node")]
    Exists,
    #[error("out of memory")]
    NoMemory,
}

/// Why a node is not brought back.
#[derive(Clone, Copy, Debug, PartialEq, Eq, Error)]
pub enum RestartError {
    /// The node of the call that was to do it died: the place of its Death.
    #[error("the node of the call died at entry {at}")]
    Died { at: u64 },
    #[error("the node is not dead")]
    NotDead,
    #[error("out of memory")]
    NoMemory,
}

impl From<AllocError> for AddNodeError {
    ghost use Rattle.std.specs.Prelude.{◌≡◌};
    ghost use Rattle.shelf.specs.declared.answers.AddNodeError.TheVariants.{NoMemory};

    ghost from_gives = { λ _ e. e ≡ NoMemory };

    fn from(_: AllocError) -> AddNodeError {
        AddNodeError::NoMemory
    }
}

impl From<AllocError> for RestartError {
    ghost use Rattle.std.specs.Prelude.{◌≡◌};
    ghost use Rattle.shelf.specs.declared.answers.RestartError.TheVariants.{NoMemory};

    ghost from_gives = { λ _ e. e ≡ NoMemory };

    fn from(_: AllocError) -> RestartError {
        RestartError::NoMemory
    }
}
