/// What a transform makes of a value.
#[derive(Drop)]
pub enum Applied<V> {
    Changed(V),
    /// Refused with a code of the transform's own.
    Refused(u32),
}
