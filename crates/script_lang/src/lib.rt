//! Scripts, and what is written of their runs: which bytes are a script, what it asks for, and why others are none; and
//! the text of a transcript. It stands on `script_words` for the words of a line, on `prefs_text` for texts and on
//! `byte_io` for the sink. Its contracts above are those of `parse_script` and of `write_transcript`.
#![tactic(auto)]

// what a script asks for
mod plan;

// which bytes are a script, and how they are read
mod parsing;

// what is told of a run, and its text
mod transcripts;

// what holds of all scripts
mod laws;

// which transcripts tell the truth of theirs, and which do not
mod truth;

pub use laws::{
    one_fault, one_script, others_have_a_fault, scripts_have_no_fault, scripts_keep_their_rules,
};
pub use parsing::{
    Draft, Line, LineWord, MAX_CLIENTS, MAX_NODES, ScriptError, ScriptFault, parse_script,
};
pub use plan::{Act, Mode, RunLine, Script, Series, SessionPlan, Start};
pub use transcripts::{
    AnswerList, FileSeen, Session, SessionList, Transcript, WriteTextError, write_transcript,
};
pub use truth::{
    histories_have_tests, transcripts_are_good, truth_has_tests, untrue_answers, untrue_causes,
    untrue_failures, untrue_files, untrue_jobs, untrue_orders, untrue_reads, untrue_sessions,
    untrue_updates,
};
