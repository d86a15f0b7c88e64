/// What a step of a call gives.
#[derive(Drop)]
pub enum Progress<A> {
    /// The call goes on.
    Moved,
    /// Another call owns the lock, and nothing changed.
    Blocked,
    /// The call has ended with this answer.
    Ended(A),
}
