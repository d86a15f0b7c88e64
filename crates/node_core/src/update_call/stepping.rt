ghost use Rattle.std.specs.Prelude.{◌≡◌, ◌||◌, true, false, None, Err};
ghost use Rattle.hist_journal.specs.Folds.{raises_of};
ghost use Rattle.hist_journal.specs.Nodes.{is_dead};
ghost use Rattle.shelf.specs.AddsNode.{is_among};
ghost use Rattle.step_table.specs.Caching.{published_by};
ghost use Rattle.step_table.specs.Calls as at;
ghost use Rattle.step_table.specs.Calls.{is_gone, replied};
ghost use Rattle.shelf.specs.ShelfSeen.{shelf_seen};
ghost use Rattle.node_core.specs.Phases.{is_finishing};
ghost use Rattle.node_core.specs.Ready.{Ready};
ghost use Rattle.node_core.specs.Steps.{Steps, is_last};
ghost use Rattle.node_core.specs.Views.{init_seen, kept_in, state_seen, world_seen, write_seen};

use super::{State, UpdateCall};
use crate::applying::{Made, apply};
use crate::change::Change;
use crate::init_call::{InitCall, Initialised};
use crate::locking::{Locked, lock};
use crate::origin::Origin;
use crate::read_errors::as_update_error;
use crate::reading::read_main;
use crate::write_call::{WriteCall, Written};
use hist_journal::Kind;
use shelf::{Parts, Shelf, Want};
use std::alloc::Global;
use std::mem;
use step_table::Progress;
use store_traits::{UpdateError, Word};

impl<P: Parts> UpdateCall<P> {
    /// The row's own work, of a call that lives.
    pub(super) fn work<W: Word>(
        &mut self,
        alloc: Global,
        shelf: &mut Shelf<P>,
        word: &mut W,
    ) -> Progress<Result<u64, UpdateError>>
        requires running { is_gone (state_seen self.old.state) ≡ false }
        requires word { W.ready (W.made word.old) }
        requires number { W.number word.old ≡ raises_of (shelf_seen shelf.old).list }
        requires node { is_among self.old.origin.call.node (shelf_seen shelf.old).store.nodes ≡ true }
        requires ready { Ready P.C.Codec P.T.Transform P.F.Folder self.old.origin (state_seen self.old.state) (shelf_seen shelf.old) }
        requires lives { is_dead self.old.origin.call.node (shelf_seen shelf.old).list ≡ false }
        ensures steps { Steps P.C.Codec P.T.Transform P.F.Folder self.old.origin (state_seen self.old.state) (shelf_seen shelf.old) (replied result) (state_seen self.new.state) (shelf_seen shelf.new) }
        ensures published { kept_in self.new.state ≡ published_by (state_seen self.old.state) (replied result) (world_seen P.F.Folder (shelf_seen shelf.new)) }
        ensures number { W.number word.new ≡ raises_of (shelf_seen shelf.new).list }
        ensures made { W.made word.new ≡ W.made word.old }
        ensures origin { self.new.origin ≡ self.old.origin }
        ensures initialised { self.new.initialised ≡ (self.old.initialised || is_finishing (state_seen self.old.state)) }
    {
        let state = mem::replace(&mut self.state, State::Gone);
        self.initialised = self.initialised || state.is_finishing();
        let (state, progress) = state.step(self.origin, alloc, shelf, word);
        self.state = state;
        progress
    }

    /// A death ends the call before its step. None is left for which it matters whether that was to initialise the node.
    pub(super) fn die(&mut self, at: u64) -> Progress<Result<u64, UpdateError>>
        ensures answer { result ≡ Progress.Ended (Err (UpdateError.Died at)) }
        ensures state { self.new.state ≡ State.Gone }
        ensures origin { self.new.origin ≡ self.old.origin }
        ensures initialised { self.new.initialised ≡ (self.old.initialised || is_finishing (state_seen self.old.state)) }
    {
        let state = mem::replace(&mut self.state, State::Gone);
        self.initialised = self.initialised || state.is_finishing();
        Progress::Ended(Err(UpdateError::Died { at }))
    }
}

impl<P: Parts> State<P> {
    /// The next step: the state behind it, and how far the call is.
    fn step<W: Word>(
        self,
        origin: Origin,
        alloc: Global,
        shelf: &mut Shelf<P>,
        word: &mut W,
    ) -> (State<P>, Progress<Result<u64, UpdateError>>)
        requires running { is_gone (state_seen self) ≡ false }
        requires word { W.ready (W.made word.old) }
        requires number { W.number word.old ≡ raises_of (shelf_seen shelf.old).list }
        requires node { is_among origin.call.node (shelf_seen shelf.old).store.nodes ≡ true }
        requires ready { Ready P.C.Codec P.T.Transform P.F.Folder origin (state_seen self) (shelf_seen shelf.old) }
        requires lives { is_dead origin.call.node (shelf_seen shelf.old).list ≡ false }
        ensures steps { Steps P.C.Codec P.T.Transform P.F.Folder origin (state_seen self) (shelf_seen shelf.old) (replied result.1) (state_seen result.0) (shelf_seen shelf.new) }
        ensures published { kept_in result.0 ≡ published_by (state_seen self) (replied result.1) (world_seen P.F.Folder (shelf_seen shelf.new)) }
        ensures number { W.number word.new ≡ raises_of (shelf_seen shelf.new).list }
        ensures made { W.made word.new ≡ W.made word.old }
    {
        match self {
            State::First { edit } => take(origin, alloc, shelf, edit),
            State::Initialise { edit, init } => initialise(origin, alloc, shelf, edit, init),
            State::Read { edit } => read(origin, alloc, shelf, edit),
            State::Write { write } => write_on(origin, shelf, word, write),
            State::SyncChanged { at, kept: _ } => sync_changed(origin, shelf, at),
            State::SyncKept { edit } => sync_kept(origin, shelf, edit),
            State::Gone => unreachable!(),
        }
    }

    /// The step tells that the node is initialised.
    fn is_finishing(&self) -> bool
        ensures { result ≡ is_finishing (state_seen self.now) }
    {
        match self {
            State::Initialise { edit: _, init } => init.is_last(),
            _ => false,
        }
    }
}

/// The lock is taken.
fn take<P: Parts>(
    origin: Origin,
    alloc: Global,
    shelf: &mut Shelf<P>,
    edit: P::T,
) -> (State<P>, Progress<Result<u64, UpdateError>>)
    requires ready { Ready P.C.Codec P.T.Transform P.F.Folder origin (at.First (at.Update edit)) (shelf_seen shelf.old) }
    ensures steps { Steps P.C.Codec P.T.Transform P.F.Folder origin (at.First (at.Update edit)) (shelf_seen shelf.old) (replied result.1) (state_seen result.0) (shelf_seen shelf.new) }
    ensures unpublished { kept_in result.0 ≡ None }
    ensures raises { raises_of (shelf_seen shelf.new).list ≡ raises_of (shelf_seen shelf.old).list }
{
    match lock(origin, alloc, shelf, Want::Update) {
        Ok(Locked::Initialise) => {
            let init = InitCall::Read;
            (State::Initialise { edit, init }, Progress::Moved)
        }
        Ok(Locked::Held) => (State::Read { edit }, Progress::Moved),
        Ok(Locked::Blocked) => (State::First { edit }, Progress::Blocked),
        Ok(Locked::Unlocked) => unreachable!(),
        Err(error) => (State::Gone, Progress::Ended(Err(as_update_error(error)))),
    }
}

/// A step of the initialisation.
fn initialise<P: Parts>(
    origin: Origin,
    alloc: Global,
    shelf: &mut Shelf<P>,
    edit: P::T,
    init: InitCall<P>,
) -> (State<P>, Progress<Result<u64, UpdateError>>)
    requires node { is_among origin.call.node (shelf_seen shelf.old).store.nodes ≡ true }
    requires ready { Ready P.C.Codec P.T.Transform P.F.Folder origin (init_seen (at.Update edit) init) (shelf_seen shelf.old) }
    requires lives { is_dead origin.call.node (shelf_seen shelf.old).list ≡ false }
    ensures steps { Steps P.C.Codec P.T.Transform P.F.Folder origin (init_seen (at.Update edit) init) (shelf_seen shelf.old) (replied result.1) (state_seen result.0) (shelf_seen shelf.new) }
    ensures unpublished { kept_in result.0 ≡ None }
    ensures raises { raises_of (shelf_seen shelf.new).list ≡ raises_of (shelf_seen shelf.old).list }
{
    match init.step(origin, alloc, shelf) {
        Initialised::Moved(init) => (State::Initialise { edit, init }, Progress::Moved),
        Initialised::Finished => (State::First { edit }, Progress::Moved),
        Initialised::Ended(error) => (State::Gone, Progress::Ended(Err(as_update_error(error)))),
    }
}

/// Main is read, and the edit applied to its value.
fn read<P: Parts>(
    origin: Origin,
    alloc: Global,
    shelf: &mut Shelf<P>,
    edit: P::T,
) -> (State<P>, Progress<Result<u64, UpdateError>>)
    requires ready { Ready P.C.Codec P.T.Transform P.F.Folder origin (at.Reading at.Serve (at.Update edit)) (shelf_seen shelf.old) }
    requires lives { is_dead origin.call.node (shelf_seen shelf.old).list ≡ false }
    ensures steps { Steps P.C.Codec P.T.Transform P.F.Folder origin (at.Reading at.Serve (at.Update edit)) (shelf_seen shelf.old) (replied result.1) (state_seen result.0) (shelf_seen shelf.new) }
    ensures unpublished { kept_in result.0 ≡ None }
    ensures raises { raises_of (shelf_seen shelf.new).list ≡ raises_of (shelf_seen shelf.old).list }
{
    let given = match read_main(origin, alloc, shelf) {
        Ok(given) => given,
        Err(error) => return (State::Gone, Progress::Ended(Err(as_update_error(error)))),
    };
    match apply(alloc, shelf, &given, &edit) {
        Ok(Some(Made { plan, value })) => {
            let kind = Kind::Edit(edit);
            let change = Change { kind, value };
            let write = WriteCall::Raise { plan, change };
            (State::Write { write }, Progress::Moved)
        }
        Ok(None) => (State::SyncKept { edit }, Progress::Moved),
        Err(error) => {
            shelf.free(origin.call);
            (State::Gone, Progress::Ended(Err(error)))
        }
    }
}

/// A step of the write.
fn write_on<P: Parts, W: Word>(
    origin: Origin,
    shelf: &mut Shelf<P>,
    word: &mut W,
    write: WriteCall<P>,
) -> (State<P>, Progress<Result<u64, UpdateError>>)
    requires word { W.ready (W.made word.old) }
    requires number { W.number word.old ≡ raises_of (shelf_seen shelf.old).list }
    requires ready { Ready P.C.Codec P.T.Transform P.F.Folder origin (write_seen write) (shelf_seen shelf.old) }
    requires lives { is_dead origin.call.node (shelf_seen shelf.old).list ≡ false }
    ensures steps { Steps P.C.Codec P.T.Transform P.F.Folder origin (write_seen write) (shelf_seen shelf.old) (replied result.1) (state_seen result.0) (shelf_seen shelf.new) }
    ensures published { kept_in result.0 ≡ published_by (write_seen write) (replied result.1) (world_seen P.F.Folder (shelf_seen shelf.new)) }
    ensures number { W.number word.new ≡ raises_of (shelf_seen shelf.new).list }
    ensures made { W.made word.new ≡ W.made word.old }
{
    match write.step(origin, shelf, word) {
        Written::Moved(write) => (State::Write { write }, Progress::Moved),
        Written::Changed { at, kept } => {
            let kept = Some(kept);
            (State::SyncChanged { at, kept }, Progress::Moved)
        }
        Written::Faulted { at } => {
            let fault = UpdateError::StorageFault { at };
            (State::Gone, Progress::Ended(Err(fault)))
        }
    }
}

/// The folder is synced behind the value change at this place, and the call ends.
fn sync_changed<P: Parts>(
    origin: Origin,
    shelf: &mut Shelf<P>,
    place: u64,
) -> (State<P>, Progress<Result<u64, UpdateError>>)
    requires ready { Ready P.C.Codec P.T.Transform P.F.Folder origin (at.SyncingFolder (at.Changed place)) (shelf_seen shelf.old) }
    requires lives { is_dead origin.call.node (shelf_seen shelf.old).list ≡ false }
    ensures steps { Steps P.C.Codec P.T.Transform P.F.Folder origin (at.SyncingFolder (at.Changed place)) (shelf_seen shelf.old) (replied result.1) (state_seen result.0) (shelf_seen shelf.new) }
    ensures unpublished { kept_in result.0 ≡ None }
    ensures raises { raises_of (shelf_seen shelf.new).list ≡ raises_of (shelf_seen shelf.old).list }
{
    match shelf.sync_folder(origin.call, None) {
        Ok(edition) => {
            shelf.free(origin.call);
            (State::Gone, Progress::Ended(Ok(edition)))
        }
        Err(_fault) => {
            let error = UpdateError::NotDurable { at: place };
            (State::Gone, Progress::Ended(Err(error)))
        }
    }
}

/// The folder is synced for an edit that kept the value, which is told by a Same, and the call ends.
fn sync_kept<P: Parts>(
    origin: Origin,
    shelf: &mut Shelf<P>,
    edit: P::T,
) -> (State<P>, Progress<Result<u64, UpdateError>>)
    requires ready { Ready P.C.Codec P.T.Transform P.F.Folder origin (at.SyncingFolder (at.Kept edit)) (shelf_seen shelf.old) }
    requires lives { is_dead origin.call.node (shelf_seen shelf.old).list ≡ false }
    ensures steps { Steps P.C.Codec P.T.Transform P.F.Folder origin (at.SyncingFolder (at.Kept edit)) (shelf_seen shelf.old) (replied result.1) (state_seen result.0) (shelf_seen shelf.new) }
    ensures unpublished { kept_in result.0 ≡ None }
    ensures raises { raises_of (shelf_seen shelf.new).list ≡ raises_of (shelf_seen shelf.old).list }
{
    match shelf.sync_folder(origin.call, Some(edit)) {
        Ok(edition) => {
            shelf.free(origin.call);
            (State::Gone, Progress::Ended(Ok(edition)))
        }
        Err(at) => {
            let error = UpdateError::NotDurable { at };
            (State::Gone, Progress::Ended(Err(error)))
        }
    }
}
