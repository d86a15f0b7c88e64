use crate::{Parts, ValueOf};
use hist_journal::Journal;

/// What is left of a shelf once its session has ended.
#[derive(Drop)]
pub struct ShelfParts<P: Parts> {
    pub codec: P::C,
    pub journal: Journal<ValueOf<P>, P::T>,
    pub folder: P::F,
}
