use prefs_model::PrefMap;
use store_traits::Given;

/// What a call of a script is answered. A place is that of an entry in the session's history, counted from 1.
#[derive(Drop)]
pub enum Answer {
    /// The update was done: its edition.
    Updated(u64),
    /// What a read gives.
    Read(Given<PrefMap>),
    /// What a flow gives, where its edition is a new one.
    Flow(Given<PrefMap>),
    /// The flow has this edition already.
    Unchanged(u64),
    /// The edit refused: its code, and the edition of the value that it refused.
    Refused(u32, u64),
    /// Main has no reading.
    Corrupt,
    /// Main has so many bytes, which passes the limit.
    FileTooLong(u64),
    /// The new value has so many bytes, which passes the limit.
    ValueTooLong(u64),
    /// The history is full: its entries and its weight.
    HistoryFull(u64, u64),
    /// The folder failed: the place of its Fault.
    StorageFault(u64),
    /// The change may not be on the disk: its place, or that of the Fault of an update that changed nothing.
    NotDurable(u64),
    /// The old settings failed: the place of their Fault.
    LegacyFault(u64),
    /// The call's node died: the place of its Death.
    Died(u64),
    /// The edit waits for the node's actor.
    Posted,
    /// So many edits wait for the node's actor that this one was not taken.
    Full,
    /// The node lives again: the place of its Restart.
    Restarted(u64),
    /// The node to be restarted lives.
    NotDead,
    /// The machine stopped before the call had an answer.
    Cut,
}
