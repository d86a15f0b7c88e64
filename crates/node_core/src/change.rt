use hist_journal::Kind;
use shelf::{Parts, ValueOf};
use std::sync::Arc;

/// A value change that is to be written, and the value that it makes. That value was made where memory may be refused, and
/// is published once the change stands.
#[derive(Drop)]
pub struct Change<P: Parts> {
    pub kind: Kind<ValueOf<P>, P::T>,
    pub value: Arc<ValueOf<P>>,
}
