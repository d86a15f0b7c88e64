//! What the seats at a room's table know. No value of these types is made.
use hist_journal::Listed;
use std::collections::LinkedList;

/// What is known of one pass.
pub struct Known<E, H> {
    /// The entries that it has seen: a beginning of the state's list.
    pub seen: LinkedList<E>,
    /// The entries that its turns added, in order.
    pub mine: LinkedList<E>,
    /// What the state held for a client of this pass when its last turn ended.
    pub held: Option<H>,
    /// How often it loaded the version outside a turn.
    pub loads: u64,
    /// The version that it loaded last outside a turn; 0 before the first load.
    pub last: u64,
    /// How many of its turns ended.
    pub turns: u64,
    /// The client numbers that its entries may carry: from `low` to below `high`.
    pub low: u64,
    pub high: u64,
}

/// A turn in progress.
pub struct Begun<E, H> {
    pub ticket: u64,
    /// The state's list and holding when the turn began.
    pub list: LinkedList<E>,
    pub holding: Option<H>,
    /// How often the turn raised the version so far.
    pub raised: u64,
}

/// Where a caller stands.
pub enum Stage<E, H> {
    Outside,
    /// It has drawn this ticket.
    Waiting(u64),
    InTurn(Begun<E, H>),
}

/// What a seat knows.
pub struct View<D, E, H> {
    /// The head of the state; none at a seat that was given up.
    pub head: Option<D>,
    pub own: Known<E, H>,
    pub stage: Stage<E, H>,
    /// What the note told that was joined last.
    pub told: LinkedList<E>,
    /// What is known of the passes that were joined when the room is closed.
    pub gathered: LinkedList<Known<E, H>>,
}

pub type ViewOf<S> = View<<S as Listed>::Head, <S as Listed>::Entry, <S as Listed>::Holding>;
