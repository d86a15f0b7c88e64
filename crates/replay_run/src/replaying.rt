ghost use Rattle.std.specs.Prelude.{◌≡◌, ◌∷◌, [], IfOk};
ghost use Rattle.script_lang.specs.Keeps.{Keeps};
ghost use Rattle.script_lang.specs.TranscriptText.{HasNames};
ghost use Rattle.script_lang.specs.TranscriptView.{session_seen};
ghost use Rattle.replay_run.specs.PrefsBasis.{prefs_basis};
ghost use Rattle.replay_run.specs.Replays.{Replays};
ghost use Rattle.replay_run.specs.SessionPlayed.{IsPlayedWell};

use crate::names::copy_of_names;
use crate::running_session::RunningSession;
use script_lang::{Script, Session, SessionList, SessionPlan, Transcript};
use std::alloc::{AllocError, Global};

/// Runs a script step by step, on one thread. Only want of memory ends it without a transcript.
pub fn replay(alloc: Global, script: &Script) -> Result<Transcript, AllocError>
    requires { Keeps script.now }
    ensures replays { IfOk result (λ transcript. ∥ Replays prefs_basis script.now transcript ∥₁) }
    // Whoever its text names has a name.
    ensures names { IfOk result HasNames }
{
    // No line ends a session yet.
    let plan = &script.sessions.as_slice()[0];
    let mut sessions = Vec::with_capacity(alloc, 1)?;
    sessions.push(play(alloc, script, plan)?)?;
    Ok(Transcript {
        names: copy_of_names(alloc, &script.names)?,
        sessions: SessionList::new(sessions),
    })
}

/// The first session of the script goes by this plan.
fn play(alloc: Global, script: &Script, plan: &SessionPlan) -> Result<Session, AllocError>
    requires keeps { Keeps script.now }
    requires plan { script.now.sessions ≡ plan.now ∷ [] }
    ensures { IfOk result (λ session. ∥ IsPlayedWell prefs_basis script.now plan.now (session_seen session) ∥₁) }
{
    let mut session = RunningSession::open(alloc, script, plan)?;
    session.follow(alloc, plan.lines.as_slice())?;
    session.finish(alloc)?;
    session.close(alloc)
}
