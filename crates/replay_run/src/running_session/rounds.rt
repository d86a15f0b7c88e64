ghost use Rattle.std.specs.Prelude.{◌≡◌, ◌<◌, ◌⊎◌, IfSome, OnOk, map, vec_len};
ghost use Rattle.std.specs.List.{list_any};
ghost use Rattle.value_cache.specs.Cached.{kept_seen};
ghost use Rattle.replay_run.specs.Lines.{StepsTimes};
ghost use Rattle.replay_run.specs.Rounds.{Finishes, IsOver, Round};
ghost use Rattle.replay_run.specs.RunState.{is_busy};
ghost use Rattle.replay_run.specs.SessionInvariant.{AskedAlike, AsksFew, SessionInvariant};
ghost use Rattle.replay_run.specs.SessionView.{client_seen, rules_in, state_in, store_in};
ghost use Rattle.replay_run.specs.Steps.{StepsAt, emptied};
ghost use Rattle.replay_run.specs.WorkLeft.{work_left};

use super::RunningSession;
use prefs_model::PrefMap;
use std::alloc::{AllocError, Global};
use store_traits::NodeId;
use value_cache::Cache;

impl<'s> RunningSession<'s> {
    /// The client at this place does a step, if it has something to do.
    fn go(&mut self, alloc: Global, place: usize) -> Result<(), AllocError>
        requires keeps { SessionInvariant self.old }
        requires few { AsksFew 100000 self.old }
        requires within { place < vec_len self.old.clients }
        ensures steps { OnOk result (StepsAt (rules_in self.old.shelf) (store_in self.old.shelf) place (state_in self.old) (state_in self.new)) }
        ensures keeps { OnOk result (SessionInvariant self.new) }
        ensures store { store_in self.new.shelf ≡ store_in self.old.shelf }
        ensures asked { AskedAlike self.old self.new }
    {
        let client = &mut self.clients[place];
        let cache = &mut self.caches[client.node().0 as usize];
        let back = client.go(alloc, &mut self.shelf, &mut self.word, cache)?;
        forget(&mut self.caches, back);
        Ok(())
    }

    /// It does so many steps, as long as it has something to do.
    pub(super) fn go_times(
        &mut self,
        alloc: Global,
        place: usize,
        steps: u32,
    ) -> Result<(), AllocError>
        requires keeps { SessionInvariant self.old }
        requires few { AsksFew 100000 self.old }
        requires within { place < vec_len self.old.clients }
        ensures steps { OnOk result (StepsTimes (rules_in self.old.shelf) (store_in self.old.shelf) place steps (state_in self.old) (state_in self.new)) }
        ensures keeps { OnOk result (SessionInvariant self.new) }
        ensures store { store_in self.new.shelf ≡ store_in self.old.shelf }
        ensures asked { AskedAlike self.old self.new }
    {
        for _step in 0..steps {
            if !self.clients[place].is_busy() {
                break;
            }
            self.go(alloc, place)?;
        }
        Ok(())
    }

    /// Each client that has something to do does a step, again and again, until nobody has.
    pub(crate) fn finish(&mut self, alloc: Global) -> Result<(), AllocError>
        requires keeps { SessionInvariant self.old }
        requires few { AsksFew 100000 self.old }
        ensures finishes { OnOk result (Finishes (rules_in self.old.shelf) (store_in self.old.shelf) (state_in self.old) (state_in self.new)) }
        ensures keeps { OnOk result (SessionInvariant self.new) }
        ensures store { store_in self.new.shelf ≡ store_in self.old.shelf }
    {
        while self.is_busy() {
            self.round(alloc)?;
        }
        Ok(())
    }

    /// Each client that has something to do does a step. Somebody then has less left to do, if anybody had something.
    fn round(&mut self, alloc: Global) -> Result<(), AllocError>
        requires keeps { SessionInvariant self.old }
        requires few { AsksFew 100000 self.old }
        ensures round { OnOk result (Round (rules_in self.old.shelf) (store_in self.old.shelf) (state_in self.old) (state_in self.new)) }
        ensures falls { OnOk result (IsOver (state_in self.old) ⊎ (work_left (store_in self.old.shelf).limits.file (state_in self.new) < work_left (store_in self.old.shelf).limits.file (state_in self.old))) }
        ensures keeps { OnOk result (SessionInvariant self.new) }
        ensures store { store_in self.new.shelf ≡ store_in self.old.shelf }
        ensures asked { AskedAlike self.old self.new }
    {
        for place in 0..self.clients.len() {
            self.go(alloc, place)?;
        }
        Ok(())
    }

    /// Whether anybody has something to do.
    fn is_busy(&self) -> bool
        ensures { result ≡ list_any (λ client. is_busy (client_seen client)) self.now.clients.items }
    {
        self.clients.iter().any(|client| client.is_busy())
    }
}

/// The cache of a node that was brought back keeps nothing any more.
fn forget(caches: &mut Vec<Cache<PrefMap>>, back: Option<NodeId>)
    requires { IfSome back (λ node. node.0 < vec_len caches.old) }
    ensures { map kept_seen caches.new.items ≡ emptied back (map kept_seen caches.old.items) }
{
    if let Some(node) = back {
        caches[node.0 as usize].empty();
    }
}
