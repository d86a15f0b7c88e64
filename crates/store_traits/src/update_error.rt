use thiserror::Error;

/// Why an update ended without its acknowledgement. `at` is the place of an entry in the history of the
/// session, counted from 1.
///
/// After `NotDurable` the value change at `at` stands though it was not acknowledged, or `at` is the fault
/// of an update that changed nothing. After `Died` the transform stands in the history exactly where its
/// rename was done. After every other answer it does not stand there.
#[derive(Clone, Copy, Debug, PartialEq, Eq, Error)]
pub enum UpdateError {
    #[error("refused with code {code} at edition {edition}")]
    Refused { code: u32, edition: u64 },
    #[error("the file is unreadable")]
    Corrupt,
    #[error("a file of {len} bytes is too long")]
    FileTooLong { len: u64 },
    #[error("a value of {len} bytes is too long")]
    ValueTooLong { len: u64 },
    #[error("the history is full with {entries} entries of weight {weight}")]
    HistoryFull { entries: u64, weight: u64 },
    #[error("the folder failed, as entry {at} says")]
    StorageFault { at: u64 },
    #[error("the change is not known to last, as entry {at} says")]
    NotDurable { at: u64 },
    #[error("the old settings failed, as entry {at} says")]
    LegacyFault { at: u64 },
    #[error("the node died, as entry {at} says")]
    Died { at: u64 },
    #[error("out of memory")]
    NoMemory,
}
