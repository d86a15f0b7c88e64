ghost use Rattle.std.specs.Prelude.{◌≡◌, true, false, option_map, None, IfSome, IsTrue};
ghost use Rattle.hist_journal.specs.Folds.{raises_of};
ghost use Rattle.shelf.specs.AddsNode.{is_among};
ghost use Rattle.shelf.specs.ShelfSeen.{shelf_seen};
ghost use Rattle.step_table.specs.Caching.{published_by};
ghost use Rattle.step_table.specs.Calls.{is_gone};
ghost use Rattle.value_cache.specs.Cached.{cached_seen};
ghost use Rattle.value_cache.specs.Truth.{IsValueOf};
ghost use Rattle.replay_run.specs.RunningSteps.{CallMayStep, CallSteps, kept_of, reply_seen, replied_so};
ghost use Rattle.replay_run.specs.SessionView.{rules_in, running_seen, store_in, world_in};

use crate::client::Settings;
use node_core::{Progress, ReadCall, UpdateCall};
use prefs_model::PrefMap;
use shelf::{RestartError, Shelf};
use std::alloc::Global;
use store_traits::{Given, PlainWord, ReadError, UpdateError};
use value_cache::CachedValue;

/// A call in progress.
#[derive(Drop)]
pub(crate) enum Running {
    Update(UpdateCall<Settings>),
    Read(ReadCall<Settings>),
}

/// What a call is answered, by what it asked for.
#[derive(Drop)]
pub(crate) enum Reply {
    Updated(Result<u64, UpdateError>),
    Gave(Result<Given<PrefMap>, ReadError>),
    Restarted(Result<u64, RestartError>),
}

impl Running {
    /// Does its next turn.
    pub(crate) fn step(
        &mut self,
        alloc: Global,
        shelf: &mut Shelf<Settings>,
        word: &mut PlainWord,
    ) -> Progress<Reply>
        requires running { is_gone (running_seen self.old).at ≡ false }
        requires number { word.old ≡ raises_of (shelf_seen shelf.old).list }
        requires node { is_among (running_seen self.old).id.node (shelf_seen shelf.old).store.nodes ≡ true }
        requires may { CallMayStep self.old shelf.old }
        ensures steps { CallSteps self.old shelf.old (replied_so result) self.new shelf.new }
        ensures published { kept_of self.new ≡ published_by (running_seen self.old).at (replied_so result) (world_in shelf.new) }
        // What is to be published is of the history as it is by then.
        ensures current { IfSome (kept_of self.new) (IsValueOf (rules_in shelf.new).meanings.after (store_in shelf.new).base (shelf_seen shelf.new).list) }
        ensures number { word.new ≡ raises_of (shelf_seen shelf.new).list }
    {
        match self {
            Running::Update(call) => match call.step(alloc, shelf, word) {
                Progress::Moved => Progress::Moved,
                Progress::Blocked => Progress::Blocked,
                Progress::Ended(answer) => Progress::Ended(Reply::Updated(answer)),
            },
            Running::Read(call) => match call.step(alloc, shelf, word) {
                Progress::Moved => Progress::Moved,
                Progress::Blocked => Progress::Blocked,
                Progress::Ended(answer) => Progress::Ended(Reply::Gave(answer)),
            },
        }
    }

    /// What the last turn has to publish to the cache of its node, once.
    pub(crate) fn kept(&mut self) -> Option<CachedValue<PrefMap>>
        ensures kept { option_map cached_seen result ≡ kept_of self.old }
        ensures same { running_seen self.new ≡ running_seen self.old }
    {
        match self {
            Running::Update(call) => call.kept(),
            Running::Read(call) => call.kept(),
        }
    }
}
