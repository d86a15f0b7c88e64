ghost use Rattle.std.specs.Prelude.{◌≡◌, flat_map, map, IfOk};
ghost use Rattle.hist_journal.specs.View.{base_seen};
ghost use Rattle.prefs_text.specs.AnswerView.{line_seen};
ghost use Rattle.script_lang.specs.TranscriptView.{session_seen};
ghost use Rattle.replay_run.specs.PrefsBasis.{prefs_basis};
ghost use Rattle.replay_run.specs.Rounds.{IsOver};
ghost use Rattle.replay_run.specs.ScriptRun.{Tells};
ghost use Rattle.replay_run.specs.SessionView.{client_seen, state_in, store_in};

use super::RunningSession;
use crate::client::Client;
use crate::main_file::told_main;
use hist_journal::Base;
use prefs_model::PrefMap;
use prefs_text::AnswerLine;
use script_lang::{AnswerList, Session};
use std::alloc::{AllocError, Global};
use std::sync::Arc;

impl<'s> RunningSession<'s> {
    /// What came of the session, in which nobody has anything to do any more.
    pub(crate) fn close(self, alloc: Global) -> Result<Session, AllocError>
        requires { IsOver (state_in self) }
        ensures tells { IfOk result (λ session. Tells prefs_basis (session_seen session) (state_in self.entry)) }
        ensures base { IfOk result (λ session. (session_seen session).base ≡ (store_in self.entry.shelf).base) }
    {
        let answers = all_answers(alloc, self.clients)?;
        let mut parts = self.shelf.into_parts();
        let file = told_main(alloc, parts.folder.inner().main())?;
        Ok(Session {
            base: another_owner(parts.journal.base())?,
            answers: AnswerList::new(answers),
            journal: parts.journal,
            file,
        })
    }
}

/// The answers of each client, in the order of its calls.
fn all_answers(alloc: Global, clients: Vec<Client<'_>>) -> Result<Vec<AnswerLine>, AllocError>
    ensures { IfOk result (λ lines. map line_seen lines.items ≡ flat_map (λ client. (client_seen client).answered) clients.entry.items) }
{
    let mut lines = Vec::new(alloc);
    for client in clients {
        lines.append(&mut client.into_answered())?;
    }
    Ok(lines)
}

/// The same base, whose value has one more owner.
fn another_owner(base: &Base<PrefMap>) -> Result<Base<PrefMap>, AllocError>
    ensures { IfOk result (λ another. base_seen another ≡ base_seen base.now) }
{
    match base {
        Base::Held(value) => Ok(Base::Held(Arc::try_clone(value)?)),
        Base::Corrupt => Ok(Base::Corrupt),
        Base::TooLong(len) => Ok(Base::TooLong(*len)),
    }
}
