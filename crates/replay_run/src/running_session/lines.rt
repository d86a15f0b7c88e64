ghost use Rattle.std.specs.Prelude.{◌≡◌, ◌<◌, ◌≤◌, ◌+◌, ℕ, length, All, OnOk, vec_len};
ghost use Rattle.replay_run.specs.Lines.{Asks, Follows, FollowsAll};
ghost use Rattle.replay_run.specs.SessionInvariant.{AsksFew, SessionInvariant};
ghost use Rattle.replay_run.specs.SessionSteps.{CanFollow};
ghost use Rattle.replay_run.specs.SessionView.{IsNamed, rules_in, state_in, store_in, task_seen};

use super::RunningSession;
use crate::task::Task;
use script_lang::{Act, RunLine};
use std::alloc::{AllocError, Global};

impl<'s> RunningSession<'s> {
    /// The lines are followed in their order.
    pub(crate) fn follow(&mut self, alloc: Global, lines: &'s [RunLine]) -> Result<(), AllocError>
        requires keeps { SessionInvariant self.old }
        requires asked { AsksFew 0 self.old }
        requires lines { All (CanFollow (vec_len self.old.clients) (store_in self.old.shelf).nodes) lines.now }
        requires few { length lines.now ≤ 100000 }
        ensures follows { OnOk result (FollowsAll (rules_in self.old.shelf) (store_in self.old.shelf) lines.now (state_in self.old) (state_in self.new)) }
        ensures keeps { OnOk result (SessionInvariant self.new) }
        ensures few { OnOk result (AsksFew 100000 self.new) }
        ensures store { store_in self.new.shelf ≡ store_in self.old.shelf }
    {
        for line in lines {
            self.follow_line(alloc, line)?;
        }
        Ok(())
    }

    fn follow_line(&mut self, alloc: Global, line: &'s RunLine) -> Result<(), AllocError>
        requires keeps { SessionInvariant self.old }
        requires few { AsksFew 100000 self.old }
        requires line { CanFollow (vec_len self.old.clients) (store_in self.old.shelf).nodes line.now }
        ensures follows { OnOk result (Follows (rules_in self.old.shelf) (store_in self.old.shelf) line.now.client.0 line.now.act (state_in self.old) (state_in self.new)) }
        ensures keeps { OnOk result (SessionInvariant self.new) }
        ensures few { OnOk result ((most : ℕ) → AsksFew most self.old → AsksFew (most + 1) self.new) }
        ensures store { store_in self.new.shelf ≡ store_in self.old.shelf }
        ensures clients { vec_len self.new.clients ≡ vec_len self.old.clients }
    {
        let place = line.client.0 as usize;
        match &line.act {
            Act::Update(edit) => self.ask(place, Task::Update(edit)),
            Act::Read => self.ask(place, Task::Read),
            Act::Restart(node) => self.ask(place, Task::Restart(*node)),
            Act::Go(steps) => self.go_times(alloc, place, *steps),
            // No line says these yet.
            Act::Flow | Act::Post(_) => unreachable!(),
        }
    }

    /// The client at this place is asked for one more call.
    fn ask(&mut self, place: usize, task: Task<'s>) -> Result<(), AllocError>
        requires keeps { SessionInvariant self.old }
        requires within { place < vec_len self.old.clients }
        requires named { IsNamed (store_in self.old.shelf).nodes task }
        ensures asks { OnOk result (Asks place (task_seen task.entry) (state_in self.old) (state_in self.new)) }
        ensures keeps { OnOk result (SessionInvariant self.new) }
        ensures few { OnOk result ((most : ℕ) → AsksFew most self.old → AsksFew (most + 1) self.new) }
        ensures store { store_in self.new.shelf ≡ store_in self.old.shelf }
        ensures clients { vec_len self.new.clients ≡ vec_len self.old.clients }
    {
        self.clients[place].ask(task)
    }
}
