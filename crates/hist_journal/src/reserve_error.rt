ghost use Rattle.std.specs.Prelude.{◌≡◌};

use std::alloc::AllocError;
use thiserror::Error;

/// Why a journal makes no room.
#[derive(Clone, Copy, Debug, PartialEq, Eq, Error)]
pub enum ReserveError {
    /// The history has so many entries of such a weight, and one of the two has reached its bound.
    #[error("the history is full with {entries} entries of weight {weight}")]
    HistoryFull { entries: u64, weight: u64 },
    #[error("out of memory")]
    NoMemory,
}

impl From<AllocError> for ReserveError {
    ghost use Rattle.hist_journal.specs.declared.reserve_error.ReserveError.TheVariants.{NoMemory};

    ghost from_gives = { λ _ e. e ≡ NoMemory };

    fn from(_: AllocError) -> ReserveError {
        ReserveError::NoMemory
    }
}
