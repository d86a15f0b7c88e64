//! Scripts are run step by step. It stands on `node_core` for the steps of a call, and on `script_lang` for scripts and
//! transcripts.
//! What a run of a script is stands in its specs; `replay` runs one.
#![tactic(auto)]

mod answering;
mod client;
mod laws;
mod main_file;
mod names;
mod prefs_parts;
mod replaying;
mod running;
mod running_session;
mod task;

pub use laws::{
    runs_are_good, runs_start_as_sessions_begin, scripts_have_a_run, scripts_have_one_run,
    truth_has_tests_of_settings,
};
pub use prefs_parts::PrefsParts;
pub use replaying::replay;
