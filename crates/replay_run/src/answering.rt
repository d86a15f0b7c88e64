ghost use Rattle.std.specs.Prelude.{◌≡◌, Some, None, IfOk, OnErr};
ghost use Rattle.prefs_text.specs.AnswerView.{answer_seen};
ghost use Rattle.replay_run.specs.Answering.{error_told, reply_told};
ghost use Rattle.replay_run.specs.RunningSteps.{reply_seen};

use crate::running::Reply;
use node_core::as_update_error;
use prefs_text::Answer;
use shelf::RestartError;
use std::alloc::AllocError;
use store_traits::UpdateError;

/// How a reply is told. Want of memory has no line, and is told as what it is.
pub(crate) fn answer_of(reply: Reply) -> Result<Answer, AllocError>
    ensures told { IfOk result (λ answer. reply_told (reply_seen reply) ≡ Some (answer_seen answer)) }
    ensures refused { OnErr result (reply_told (reply_seen reply) ≡ None) }
{
    match reply {
        Reply::Updated(Ok(edition)) => Ok(Answer::Updated(edition)),
        Reply::Updated(Err(error)) => answer_of_error(error),
        Reply::Gave(Ok(given)) => Ok(Answer::Read(given)),
        Reply::Gave(Err(error)) => answer_of_error(as_update_error(error)),
        Reply::Restarted(Ok(place)) => Ok(Answer::Restarted(place)),
        Reply::Restarted(Err(RestartError::Died { at })) => Ok(Answer::Died(at)),
        Reply::Restarted(Err(RestartError::NotDead)) => Ok(Answer::NotDead),
        Reply::Restarted(Err(RestartError::NoMemory)) => Err(AllocError),
    }
}

fn answer_of_error(error: UpdateError) -> Result<Answer, AllocError>
    ensures told { IfOk result (λ answer. error_told error ≡ Some (answer_seen answer)) }
    ensures refused { OnErr result (error_told error ≡ None) }
{
    match error {
        UpdateError::Refused { code, edition } => Ok(Answer::Refused(code, edition)),
        UpdateError::Corrupt => Ok(Answer::Corrupt),
        UpdateError::FileTooLong { len } => Ok(Answer::FileTooLong(len)),
        UpdateError::ValueTooLong { len } => Ok(Answer::ValueTooLong(len)),
        UpdateError::HistoryFull { entries, weight } => Ok(Answer::HistoryFull(entries, weight)),
        UpdateError::StorageFault { at } => Ok(Answer::StorageFault(at)),
        UpdateError::NotDurable { at } => Ok(Answer::NotDurable(at)),
        UpdateError::LegacyFault { at } => Ok(Answer::LegacyFault(at)),
        UpdateError::Died { at } => Ok(Answer::Died(at)),
        UpdateError::NoMemory => Err(AllocError),
    }
}
