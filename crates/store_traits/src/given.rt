use std::sync::Arc;

/// A value that a read gives, and its edition: how many value changes its history has.
#[derive(Drop)]
pub struct Given<V> {
    pub edition: u64,
    pub value: Arc<V>,
}
