ghost use Rattle.std.specs.Prelude.{◌≡◌, ◌≤◌, ◌<◌, ◌+◌, Option, Some, None, IfOk, OnOk, option_map, slice_get, vec_len};
ghost use Rattle.hist_journal.specs.Folds.{raises_of};
ghost use Rattle.shelf.specs.ShelfSeen.{shelf_seen};
ghost use Rattle.step_table.specs.Caching.{found};
ghost use Rattle.script_lang.specs.declared.plan.run_line.Act.TheVariants.{Restart, Update};
ghost use Rattle.value_cache.specs.declared.cache.Cache.{Cache};
ghost use Rattle.value_cache.specs.Cached.{cached_seen, kept_seen};
ghost use Rattle.replay_run.specs.Answering.{behind_look};
ghost use Rattle.replay_run.specs.ClientSteps.{IsAnswered, MayGo, MayRestart, MayTurn, Restarts, Spares};
ghost use Rattle.replay_run.specs.RunState.{new_call};
ghost use Rattle.replay_run.specs.RunningSteps.{reply_seen};
ghost use Rattle.replay_run.specs.SessionView.{EquippedIn, client_seen, rules_in, running_seen, store_in, view_in};
ghost use Rattle.replay_run.specs.Settings.{PrefCached, Value};
ghost use Rattle.replay_run.specs.TrueCaches.{StaysTrue};
ghost use Rattle.replay_run.specs.Steps.{ClientSteps, TakesTurn, answer_given, brought_back, kept_behind, restarted_by};

use super::{Client, Settings};
use crate::answering::answer_of;
use crate::running::{Reply, Running};
use crate::task::Task;
use node_core::{Progress, ReadCall, UpdateCall, restart};
use prefs_edit::Edit;
use prefs_model::PrefMap;
use prefs_text::AnswerLine;
use shelf::Shelf;
use std::alloc::{AllocError, Global};
use store_traits::{CallId, NodeId, PlainWord, Word};
use value_cache::{Cache, CachedValue};

impl<'s> Client<'s> {
    /// Does a step, if there is something to do, and tells which node it brought back, if it did. The cache is that of the
    /// client's own node.
    pub(crate) fn go(
        &mut self,
        alloc: Global,
        shelf: &mut Shelf<Settings>,
        word: &mut PlainWord,
        cache: &mut Cache<PrefMap>,
    ) -> Result<Option<NodeId>, AllocError>
        requires number { word.old ≡ raises_of (shelf_seen shelf.old).list }
        requires may { MayGo self.old shelf.old }
        requires few { vec_len self.old.asked ≤ 100000 }
        ensures steps { OnOk result (ClientSteps (rules_in shelf.old) (store_in shelf.old) (client_seen self.old) (view_in shelf.old cache.old) (client_seen self.new) (view_in shelf.new cache.new)) }
        ensures back { IfOk result (λ back. back ≡ brought_back (client_seen self.old) (client_seen self.new)) }
        ensures equipped { OnOk result (EquippedIn shelf.new self.new) }
        ensures spares { Spares self.old shelf.old shelf.new }
        ensures kept { self.new ≡ record self.old { running = self.new.running; answered = self.new.answered } }
        ensures store { store_in shelf.new ≡ store_in shelf.old }
        ensures codec { shelf.new.codec ≡ shelf.old.codec }
        ensures number { word.new ≡ raises_of (shelf_seen shelf.new).list }
        ensures cache { StaysTrue shelf.old shelf.new cache.old cache.new }
    {
        let Some(task) = self.task_now() else {
            return Ok(None);
        };
        match self.running.take() {
            Some(call) => {
                self.turn(alloc, shelf, word, cache, call)?;
                Ok(None)
            }
            None => match task {
                Task::Update(edit) => {
                    let call = self.new_update(alloc, edit)?;
                    self.turn(alloc, shelf, word, cache, call)?;
                    Ok(None)
                }
                Task::Read => {
                    self.look(cache, word.load())?;
                    Ok(None)
                }
                Task::Restart(node) => self.restart(alloc, shelf, node),
            },
        }
    }

    /// What the client is at: the call behind those that are answered.
    fn task_now(&self) -> Option<Task<'s>>
        ensures { result ≡ slice_get self.now.asked.items (vec_len self.now.answered) }
    {
        self.asked.get(self.answered.len()).copied()
    }

    /// The call of an update that has not begun.
    fn new_update(&self, alloc: Global, edit: &Edit) -> Result<Running, AllocError>
        requires few { vec_len self.now.answered < 100000 }
        ensures call { IfOk result (λ call. running_seen call ≡ new_call (client_seen self.now) (Update edit.now)) }
    {
        let edit = edit.copy(alloc)?;
        Ok(Running::Update(UpdateCall::new(self.next_call(), edit)))
    }

    /// The call takes its next turn.
    fn turn(
        &mut self,
        alloc: Global,
        shelf: &mut Shelf<Settings>,
        word: &mut PlainWord,
        cache: &mut Cache<PrefMap>,
        mut call: Running,
    ) -> Result<(), AllocError>
        requires number { word.old ≡ raises_of (shelf_seen shelf.old).list }
        requires may { MayTurn self.old call shelf.old }
        requires few { vec_len self.old.answered < 100000 }
        ensures steps { OnOk result (TakesTurn (rules_in shelf.old) (store_in shelf.old) (running_seen call) (client_seen self.old) (view_in shelf.old cache.old) (client_seen self.new) (view_in shelf.new cache.new)) }
        ensures equipped { OnOk result (EquippedIn shelf.new self.new) }
        ensures spares { Spares self.old shelf.old shelf.new }
        ensures kept { self.new ≡ record self.old { running = self.new.running; answered = self.new.answered } }
        ensures store { store_in shelf.new ≡ store_in shelf.old }
        ensures codec { shelf.new.codec ≡ shelf.old.codec }
        ensures number { word.new ≡ raises_of (shelf_seen shelf.new).list }
        ensures cache { StaysTrue shelf.old shelf.new cache.old cache.new }
    {
        let progress = call.step(alloc, shelf, word);
        publish(cache, call.kept());
        match progress {
            Progress::Moved | Progress::Blocked => {
                self.run(call);
                Ok(())
            }
            Progress::Ended(reply) => self.end(reply),
        }
    }

    /// A read that has not begun looks in the cache of its node, where this is the version.
    fn look(&mut self, cache: &Cache<PrefMap>, version: u64) -> Result<(), AllocError>
        requires few { vec_len self.old.answered < 100000 }
        requires idle { self.old.running ≡ None }
        ensures looks { OnOk result (client_seen self.new ≡ behind_look (client_seen self.old) (found (kept_seen cache.now) version)) }
        ensures kept { self.new ≡ record self.old { running = self.new.running; answered = self.new.answered } }
    {
        let mut call = ReadCall::new(self.next_call());
        match call.look(cache, version)? {
            Some(given) => self.end(Reply::Gave(Ok(given))),
            None => {
                self.run(Running::Read(call));
                Ok(())
            }
        }
    }

    /// A node is brought back in one turn, and named if it was dead.
    fn restart(
        &mut self,
        alloc: Global,
        shelf: &mut Shelf<Settings>,
        node: NodeId,
    ) -> Result<Option<NodeId>, AllocError>
        requires may { MayRestart self.old node shelf.old }
        requires few { vec_len self.old.answered < 100000 }
        ensures steps { OnOk result ((kept : Option PrefCached) → Restarts node self.old shelf.old kept self.new shelf.new) }
        ensures back { IfOk result (λ back. back ≡ restarted_by (Some (Restart node)) (answer_given (client_seen self.old) (client_seen self.new))) }
        ensures spares { Spares self.old shelf.old shelf.new }
        ensures kept { self.new ≡ record self.old { answered = self.new.answered } }
        ensures store { store_in shelf.new ≡ store_in shelf.old }
        ensures codec { shelf.new.codec ≡ shelf.old.codec }
        ensures raises { raises_of (shelf_seen shelf.new).list ≡ raises_of (shelf_seen shelf.old).list }
        ensures caches { (cache : Cache Value) → StaysTrue shelf.old shelf.new cache cache }
    {
        let answer = restart(alloc, shelf, self.next_call(), node);
        let back = answer.is_ok().then_some(node);
        self.end(Reply::Restarted(answer))?;
        Ok(back)
    }

    /// The call goes on.
    fn run(&mut self, call: Running)
        ensures { self.new ≡ record self.old { running = Some call } }
    {
        self.running = Some(call);
    }

    /// The call that ran is answered so.
    fn end(&mut self, reply: Reply) -> Result<(), AllocError>
        requires idle { self.old.running ≡ None }
        requires few { vec_len self.old.answered < 100000 }
        ensures answered { OnOk result (IsAnswered self.old (reply_seen reply) self.new) }
        ensures kept { self.new ≡ record self.old { answered = self.new.answered } }
    {
        let line = AnswerLine {
            call: self.next_call(),
            poster: None,
            answer: answer_of(reply)?,
        };
        self.answered.push(line)?;
        Ok(())
    }

    /// The call behind those that are answered.
    fn next_call(&self) -> CallId
        requires { vec_len self.now.answered < 100000 }
        ensures { result ≡ record { node = self.now.node; client = self.now.id; number = vec_len self.now.answered + 1 } }
    {
        CallId {
            node: self.node,
            client: self.id,
            number: self.answered.len() as u32 + 1,
        }
    }
}

/// What a turn has to publish goes to the cache.
fn publish(cache: &mut Cache<PrefMap>, kept: Option<CachedValue<PrefMap>>)
    ensures { kept_seen cache.new ≡ kept_behind (kept_seen cache.old) (option_map cached_seen kept) }
{
    if let Some(kept) = kept {
        cache.publish(kept);
    }
}
