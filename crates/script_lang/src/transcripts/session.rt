use crate::{AnswerList, FileSeen};
use hist_journal::{Base, Journal};
use prefs_edit::Edit;
use prefs_model::PrefMap;

/// What came of one session of a script.
#[derive(Drop)]
pub struct Session {
    /// What main read as at the start.
    pub base: Base<PrefMap>,
    /// The answers, in the order in which they are written.
    pub answers: AnswerList,
    pub journal: Journal<PrefMap, Edit>,
    /// Main at the end, before a machine stop.
    pub file: FileSeen,
}
