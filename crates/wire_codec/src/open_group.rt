/// A group whose end tag has not come yet.
#[derive(Clone, Copy)]
pub(crate) struct OpenGroup {
    pub(crate) number: u32,
    /// The place of its start tag.
    pub(crate) place: u64,
}
