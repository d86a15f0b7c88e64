//! What contracts see of answers: values where answers have their owners. No value of these types is made.
use prefs_model::PrefMap;
use store_traits::CallId;

/// An `Answer` with its value, behind the edition, in place of the value's owner.
pub enum AnswerSeen {
    Updated(u64),
    Read(u64, PrefMap),
    Flow(u64, PrefMap),
    Unchanged(u64),
    Refused(u32, u64),
    Corrupt,
    FileTooLong(u64),
    ValueTooLong(u64),
    HistoryFull(u64, u64),
    StorageFault(u64),
    NotDurable(u64),
    LegacyFault(u64),
    Died(u64),
    Posted,
    Full,
    Restarted(u64),
    NotDead,
    Cut,
}

/// An `AnswerLine` as contracts see it.
pub struct AnswerLineSeen {
    pub call: CallId,
    pub poster: Option<CallId>,
    pub answer: AnswerSeen,
}
