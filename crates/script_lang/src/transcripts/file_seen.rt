use store_traits::FileBytes;

/// What main is at the end of a session, before a machine stop.
#[derive(Drop)]
pub enum FileSeen {
    Absent,
    Bytes(FileBytes),
    /// Main has so many bytes, which passes the limit.
    TooLong(u64),
}
