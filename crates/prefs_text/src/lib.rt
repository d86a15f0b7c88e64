//! Exact texts of values and maps, of edits, entries and answers, and which value a text is. It stands on
//! `prefs_model`, `prefs_edit` and `hist_journal` for what is told, on `store_traits` for the names of calls, and on
//! `serde_json`, `hex` and `itoa` for its parts.
//! The contracts above it are the one text of each, and `IsValueText`, the value that a text is.
#![tactic(auto)]

mod answer;
mod answer_line;
mod answers;
mod callers;
mod edits;
mod entries;
mod joined;
mod json_texts;
mod laws;
mod lists;
mod maps;
mod name_list;
mod names;
mod numbers;
mod quoted;
mod read;
mod scalars;
mod seen;
mod value_kind;
mod value_text_error;
mod values;

pub use answer::Answer;
pub use answer_line::AnswerLine;
pub use answers::{answer_text, push_answer};
pub use edits::edit_text;
pub use entries::{entry_text, push_entry};
pub use json_texts::quoted_text;
pub use laws::{
    answers_are_in_line, edits_are_in_line, entries_are_in_line, one_value, texts_read_back,
};
pub use maps::{map_text, push_map, push_pair};
pub use name_list::NameList;
pub use names::Names;
pub use numbers::push_numbered;
pub use read::{content_value, parse_value};
pub use scalars::{decode_lower, int_of, long_of, plain_value};
pub use seen::{AnswerLineSeen, AnswerSeen};
pub use value_kind::ValueKind;
pub use value_text_error::ValueTextError;
pub use values::{push_value, value_text};
