use crate::Answer;
use store_traits::CallId;

/// The answer of a call.
#[derive(Drop)]
pub struct AnswerLine {
    pub call: CallId,
    /// The call that posted the edit, where an actor made the call.
    pub poster: Option<CallId>,
    pub answer: Answer,
}
