use prefs_model::{PrefKey, PrefValue};

/// What the words ask for.
#[derive(Drop)]
pub enum Command {
    Set { key: PrefKey, value: PrefValue },
    Get { key: PrefKey },
    Remove { key: PrefKey },
    Show,
    Replay,
}
