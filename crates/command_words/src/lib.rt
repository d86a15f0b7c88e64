//! The words of a command, read with `clap`. It stands on `prefs_text` for values that are bare words, and on
//! `prefs_model` for keys and values.
//! The one contract above it is that of `asked`: which words are a command, and what they ask for.
#![tactic(auto)]

mod command;
mod words;

pub use command::Command;
pub use words::asked;
