ghost use Rattle.std.specs.Prelude.{◌≡◌};
ghost use Rattle.node_core.specs.Steps.{as_update};

use store_traits::{ReadError, UpdateError};

/// The reason of a read, as that of an update.
pub fn as_update_error(error: ReadError) -> UpdateError
    ensures { result ≡ as_update error }
{
    match error {
        ReadError::Corrupt => UpdateError::Corrupt,
        ReadError::FileTooLong { len } => UpdateError::FileTooLong { len },
        ReadError::ValueTooLong { len } => UpdateError::ValueTooLong { len },
        ReadError::HistoryFull { entries, weight } => UpdateError::HistoryFull { entries, weight },
        ReadError::StorageFault { at } => UpdateError::StorageFault { at },
        ReadError::NotDurable { at } => UpdateError::NotDurable { at },
        ReadError::LegacyFault { at } => UpdateError::LegacyFault { at },
        ReadError::Died { at } => UpdateError::Died { at },
        ReadError::NoMemory => UpdateError::NoMemory,
    }
}
