ghost use Rattle.std.specs.Prelude.{◌≡◌, ◌||◌, false, Some, None, unwrap_or, option_map, IfSome, IsTrue, true};
ghost use Rattle.hist_journal.specs.Folds.{edition_of, raises_of};
ghost use Rattle.hist_journal.specs.Quiet.{pending};
ghost use Rattle.store_traits.specs.declared.ids.CallId.{CallId};
ghost use Rattle.shelf.specs.AddsNode.{is_among};
ghost use Rattle.step_table.specs.Caching.{published_by};
ghost use Rattle.step_table.specs.Calls.{First, Update, is_gone, replied};
ghost use Rattle.shelf.specs.Kept.{KeptMain};
ghost use Rattle.shelf.specs.ShelfSeen.{shelf_seen};
ghost use Rattle.node_core.specs.Own.{IsFor};
ghost use Rattle.node_core.specs.Phases.{is_finishing};
ghost use Rattle.node_core.specs.Ready.{rules_seen};
ghost use Rattle.node_core.specs.Shown.{ShowsAnswer};
ghost use Rattle.node_core.specs.Step.{MayStep, StepsTo};
ghost use Rattle.node_core.specs.Views.{kept_in, state_seen, world_seen};
ghost use Rattle.value_cache.specs.Cached.{cached_seen};
ghost use Rattle.value_cache.specs.Truth.{IsValueOf};

use super::{State, UpdateCall};
use crate::origin::Origin;
use shelf::{Parts, Shelf, ValueOf};
use std::alloc::Global;
use step_table::Progress;
use store_traits::{CallId, UpdateError, Word};
use value_cache::CachedValue;

impl<P: Parts> UpdateCall<P> {
    /// An update that has not begun.
    pub fn new(call: CallId, edit: P::T) -> UpdateCall<P>
        ensures state { state_seen result.state ≡ First (Update edit) }
        ensures origin { result.origin ≡ record { call = call; since = None } }
        ensures initialised { result.initialised ≡ false }
    {
        UpdateCall {
            origin: Origin { call, since: None },
            initialised: false,
            state: State::First { edit },
        }
    }

    /// Does the next step, which is one turn. Between two turns of a call others may take theirs.
    pub fn step<W: Word>(
        &mut self,
        alloc: Global,
        shelf: &mut Shelf<P>,
        word: &mut W,
    ) -> Progress<Result<u64, UpdateError>>
        requires running { is_gone (state_seen self.old.state) ≡ false }
        requires word { W.ready (W.made word.old) }
        requires number { W.number word.old ≡ raises_of (shelf_seen shelf.old).list }
        requires node { is_among self.old.origin.call.node (shelf_seen shelf.old).store.nodes ≡ true }
        requires may { MayStep P.C.Codec P.T.Transform P.F.Folder self.old.origin (state_seen self.old.state) (shelf_seen shelf.old) }
        ensures steps { StepsTo P.C.Codec P.T.Transform P.F.Folder self.old.origin (state_seen self.old.state) (shelf_seen shelf.old) (replied result) self.new.origin (state_seen self.new.state) (shelf_seen shelf.new) }
        ensures initialised { self.new.initialised ≡ (self.old.initialised || is_finishing (state_seen self.old.state)) }
        // What is to be published is of the history as it is by then, which is quiet.
        ensures published { kept_in self.new.state ≡ published_by (state_seen self.old.state) (replied result) (world_seen P.F.Folder (shelf_seen shelf.new)) }
        ensures current { IsTrue P.F.told → IfSome (kept_in self.new.state) (IsValueOf P.T.after (shelf_seen shelf.new).store.base (shelf_seen shelf.new).list) }
        // The history stays lawful, and main what it makes of it; no raise is open but that of the lock's owner.
        ensures kept { IsTrue P.F.told → ∥ KeptMain (rules_seen P.C.Codec P.T.Transform P.F.Folder (shelf_seen shelf.new)) (P.C.is_value shelf.new.codec) (shelf_seen shelf.new).store (P.F.contents shelf.new.folder) (shelf_seen shelf.new).list ∥₁ }
        ensures quiet { (call : CallId) → pending (shelf_seen shelf.new).list ≡ Some call → (shelf_seen shelf.new).owner ≡ Some call }
        // What the call is answered is in the history.
        ensures shown { (edit : P.T) → IsFor self.old.origin.call (Update edit) (state_seen self.old.state) (shelf_seen shelf.old).list
            → ShowsAnswer P.F.told (rules_seen P.C.Codec P.T.Transform P.F.Folder (shelf_seen shelf.old)) (shelf_seen shelf.old).store (edition_of (shelf_seen shelf.old).list) self.old.origin.call (Update edit) (replied result) (shelf_seen shelf.new).list }
        ensures number { W.number word.new ≡ raises_of (shelf_seen shelf.new).list }
        ensures made { W.made word.new ≡ W.made word.old }
    {
        // A first turn is told as `U1`: the shelf knows whether the node is initialised by then, the call does not.
        let entries = shelf.journal().len();
        let death = shelf.begin(self.origin.call, self.step_where(true), self.origin.since);
        self.begin(entries);
        if let Some(at) = death {
            return self.die(at);
        }
        self.work(alloc, shelf, word)
    }

    /// What the last step has to publish to the cache of its node, once.
    pub fn kept(&mut self) -> Option<CachedValue<ValueOf<P>>>
        ensures kept { option_map cached_seen result ≡ kept_in self.old.state }
        ensures once { kept_in self.new.state ≡ None }
        ensures same { state_seen self.new.state ≡ state_seen self.old.state }
        ensures call { self.new ≡ record self.old { state = self.new.state } }
    {
        match &mut self.state {
            State::SyncChanged { at: _, kept } => kept.take(),
            _ => None,
        }
    }

    /// The call's earliest turn begins, if none did before: there are so many entries.
    fn begin(&mut self, entries: u64)
        ensures origin { self.new.origin ≡ record self.old.origin { since = Some (unwrap_or self.old.origin.since entries) } }
        ensures initialised { self.new.initialised ≡ self.old.initialised }
        ensures state { self.new.state ≡ self.old.state }
    {
        self.origin.since = Some(self.origin.since.unwrap_or(entries));
    }
}
