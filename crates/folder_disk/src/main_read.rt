use store_traits::FileBytes;
use thiserror::Error;

/// What a folder has as its main file.
#[derive(Drop)]
pub enum MainRead {
    Absent,
    Bytes(FileBytes),
}

/// Why main was not read.
#[derive(Clone, Copy, Debug, PartialEq, Eq, Error)]
pub enum ReadMainError {
    #[error("the device failed")]
    Failed,
    /// Main has `len` bytes, which passes the limit.
    #[error("the main file of {len} bytes is too long")]
    TooLong { len: u64 },
    #[error("out of memory")]
    NoMemory,
}
