use store_traits::CallId;

/// Whose steps they are, and since when.
#[derive(Clone, Copy, Debug, PartialEq, Eq)]
pub struct Origin {
    pub call: CallId,
    /// How many entries there were when the call's earliest turn began; none before that.
    pub since: Option<u64>,
}
