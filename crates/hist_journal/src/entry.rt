use crate::Kind;
use store_traits::CallId;

/// An entry of a history: what happened, in which call.
#[derive(Drop)]
pub struct Entry<V, T> {
    pub who: CallId,
    pub kind: Kind<V, T>,
}
