/// What decoding makes of bytes.
#[derive(Drop)]
pub enum Decoded<V> {
    /// The one value that the bytes read as.
    Good(V),
    /// No value reads from the bytes.
    Corrupt,
}
