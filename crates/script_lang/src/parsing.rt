//! Which bytes are a script, and how they are read: line by line, each by its first word, into the draft of a script.

mod call_words;
mod death_rows;
mod draft;
mod fault_rows;
mod line;
mod line_word;
mod lines;
mod name_rows;
mod name_table;
mod parse;
mod reading;
mod run_rows;
mod script_error;
mod start_rows;

pub use draft::Draft;
pub use line::Line;
pub use line_word::LineWord;
pub use name_rows::{MAX_CLIENTS, MAX_NODES};
pub use parse::parse_script;
pub use script_error::{ScriptError, ScriptFault};
