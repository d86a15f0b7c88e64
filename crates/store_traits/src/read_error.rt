use thiserror::Error;

/// Why a read gave no value. The variants are those of `UpdateError` of the same name.
#[derive(Clone, Copy, Debug, PartialEq, Eq, Error)]
pub enum ReadError {
    #[error("the file is unreadable")]
    Corrupt,
    #[error("a file of {len} bytes is too long")]
    FileTooLong { len: u64 },
    #[error("a value of {len} bytes is too long")]
    ValueTooLong { len: u64 },
    #[error("the history is full with {entries} entries of weight {weight}")]
    HistoryFull { entries: u64, weight: u64 },
    #[error("the folder failed, as entry {at} says")]
    StorageFault { at: u64 },
    #[error("the change is not known to last, as entry {at} says")]
    NotDurable { at: u64 },
    #[error("the old settings failed, as entry {at} says")]
    LegacyFault { at: u64 },
    #[error("the node died, as entry {at} says")]
    Died { at: u64 },
    #[error("out of memory")]
    NoMemory,
}
