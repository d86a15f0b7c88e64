//! What is told of a run, and its text.

mod answer_list;
mod file_seen;
mod session;
mod session_list;
mod transcript;
mod write_text_error;
mod writing;

pub use answer_list::AnswerList;
pub use file_seen::FileSeen;
pub use session::Session;
pub use session_list::SessionList;
pub use transcript::Transcript;
pub use write_text_error::WriteTextError;
pub use writing::write_transcript;
