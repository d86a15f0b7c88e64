use crate::SessionList;
use prefs_text::Names;

/// What came of a script, session by session.
#[derive(Drop)]
pub struct Transcript {
    pub names: Names,
    pub sessions: SessionList,
}
