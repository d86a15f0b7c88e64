use thiserror::Error;

/// Why not all was read.
#[derive(Clone, Copy, Debug, PartialEq, Eq, Error)]
pub enum ReadAllError {
    #[error("a read failed")]
    ReadFault,
    /// `limit + 1` bytes were taken.
    #[error("there are more than {limit} bytes")]
    TooLong { limit: u64 },
    #[error("out of memory")]
    NoMemory,
}
