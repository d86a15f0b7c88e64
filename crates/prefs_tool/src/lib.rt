//! The commands of the program: words in, a folder read or changed, a script read, a sink written to, a status out. It
//! stands on `command_words` for the words, on `prefs_proto` for the text of the settings, on `prefs_edit` and
//! `prefs_text` for edits and printed texts, on `script_lang` and `replay_run` for scripts and their runs, and on
//! `folder_disk` and `byte_io` for the folder, the source and the sink.
//! Its one contract above is that of `run_tool`: which words are a command, what each status says of the
//! folder, the source and the sink, and why it was given.
#![tactic(auto)]

mod append;
mod change;
mod get;
mod laws;
mod read;
mod replace;
mod replay;
mod show;
mod status;
mod tool;
mod tool_error;
mod write;

pub use laws::{
    faults_have_their_status, other_bytes_are_refused, replay_faults_have_their_status,
    replay_prints_the_run, scripts_are_replayed, scripts_have_one_print, sound_commands_are_done,
};
pub use status::Status;
pub use tool::run_tool;
