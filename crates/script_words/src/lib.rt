//! The words of a script's line, and what words read as: names, numbers, texts, keys and edits. It stands on
//! `prefs_text` for quoted texts and values, and on `prefs_edit` for edits.
//! The one contract above it is which words a line has, `AreWords`, and which words are an edit, `AreEditWords`.
#![tactic(auto)]

mod edit;
mod laws;
mod line;
mod names;
mod numbers;
mod parts;
mod place;
mod rows;
mod step;
mod step_kind;
mod texts;
mod unknown;
mod words_error;

pub use edit::edit_of;
pub use laws::{
    edits_have_no_unknown_word, edits_read_back, lists_are_words, one_edit, one_list_of_words,
    quoted_texts_are_words, words_are_there,
};
pub use line::line_words;
pub use names::{is_name, is_reserved};
pub use numbers::number_of;
pub use step_kind::StepKind;
pub use texts::{key_of, text_of};
pub use words_error::WordsError;
