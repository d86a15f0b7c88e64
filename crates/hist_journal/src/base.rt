use std::sync::Arc;

/// Where a history begins: what main read as at the start of the session.
#[derive(Drop)]
pub enum Base<V> {
    Held(Arc<V>),
    /// Main has no reading.
    Corrupt,
    /// Main has so many bytes, which passes the limit.
    TooLong(u64),
}
