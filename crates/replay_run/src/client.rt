ghost use Rattle.std.specs.Prelude.{◌≡◌, ◌+◌, ◌++◌, ◌∷◌, [], None, OnOk, vec_len};
ghost use Rattle.replay_run.specs.RunState.{is_busy};
ghost use Rattle.replay_run.specs.SessionView.{client_seen};

use crate::PrefsParts;
use crate::running::Running;
use crate::task::Task;
use folder_disk::{FuseFolder, MemFolder};
use prefs_text::AnswerLine;
use std::alloc::{AllocError, Global};
use store_traits::{ClientId, NodeId};

mod going;

/// The parts of the store that a script is run on: its folder is in memory, and has a fuse.
pub(crate) type Settings = PrefsParts<FuseFolder<MemFolder>>;

/// A client of a session: what it is asked for, and how far it is with that.
#[derive(Drop)]
pub(crate) struct Client<'s> {
    id: ClientId,
    node: NodeId,
    /// Its calls, in order.
    asked: Vec<Task<'s>>,
    /// The call behind those that are answered, where it has begun.
    running: Option<Running>,
    answered: Vec<AnswerLine>,
}

impl<'s> Client<'s> {
    /// A client that has nothing to do yet. It takes no memory.
    pub(crate) fn new(alloc: Global, id: ClientId, node: NodeId) -> Client<'s>
        ensures client { result ≡ record { id = id; node = node; asked = result.asked; running = None; answered = result.answered } }
        ensures asked { result.asked.items ≡ [] }
        ensures answered { result.answered.items ≡ [] }
    {
        Client {
            id,
            node,
            asked: Vec::new(alloc),
            running: None,
            answered: Vec::new(alloc),
        }
    }

    /// Adds a call to what is to be done.
    pub(crate) fn ask(&mut self, task: Task<'s>) -> Result<(), AllocError>
        ensures asked { OnOk result (self.new.asked.items ≡ self.old.asked.items ++ task.entry ∷ []) }
        ensures count { OnOk result (vec_len self.new.asked ≡ vec_len self.old.asked + 1) }
        ensures same { OnOk result (self.new ≡ record self.old { asked = self.new.asked }) }
    {
        self.asked.push(task)?;
        Ok(())
    }

    /// Whether there is something to do.
    pub(crate) fn is_busy(&self) -> bool
        ensures { result ≡ is_busy (client_seen self.now) }
    {
        self.answered.len() < self.asked.len()
    }

    /// The node whose process it is in.
    pub(crate) fn node(&self) -> NodeId
        ensures { result ≡ self.now.node }
    {
        self.node
    }

    /// The answers of its calls, in order.
    pub(crate) fn into_answered(self) -> Vec<AnswerLine>
        ensures { result ≡ self.entry.answered }
    {
        self.answered
    }
}
