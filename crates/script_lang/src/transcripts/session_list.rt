ghost use Rattle.std.specs.Prelude.{◌≡◌, map};
ghost use Rattle.script_lang.specs.TranscriptView.{session_seen};

use crate::Session;
use std::marker::Model;

/// Sessions in order. Clauses see them as a list of records, and of a session's journal its entries alone.
#[derive(Drop)]
pub struct SessionList {
    sessions: Vec<Session>,
}

impl Model for SessionList {
    ghost use Rattle.std.specs.Prelude.{List, map};
    ghost use Rattle.script_lang.specs.TranscriptView.{SessionSeen, session_seen};

    ghost Value = { List SessionSeen };

    ghost view = { λ list. map session_seen list.sessions.items };
}

impl SessionList {
    /// Takes no memory.
    pub fn new(sessions: Vec<Session>) -> SessionList
        ensures { result ≡ map session_seen sessions.items }
    {
        SessionList { sessions }
    }

    pub fn sessions(&self) -> &[Session]
        ensures { map session_seen result.now ≡ self.now }
    {
        &self.sessions
    }

    /// Takes no memory.
    pub fn into_vec(self) -> Vec<Session>
        ensures { map session_seen result.items ≡ self }
    {
        self.sessions
    }
}
