ghost use Rattle.std.specs.Prelude.{◌≡◌, ◌||◌, Err, IfOk, IsTrue, false, None, true};
ghost use Rattle.hist_journal.specs.Folds.{raises_of};
ghost use Rattle.hist_journal.specs.Nodes.{is_dead};
ghost use Rattle.store_traits.specs.declared.update_error.UpdateError.TheVariants as UpdateError;
ghost use Rattle.shelf.specs.AddsNode.{is_among};
ghost use Rattle.shelf.specs.ShelfSeen.{shelf_seen};
ghost use Rattle.shelf.specs.ShelfTurns.{IsRaised, MayFault};
ghost use Rattle.step_table.specs.Caching.{published_by};
ghost use Rattle.step_table.specs.Calls as at;
ghost use Rattle.step_table.specs.Calls.{is_gone};
ghost use Rattle.node_core.specs.Phases.{is_finishing, is_holding};
ghost use Rattle.node_core.specs.ReadMain.{EndsRead};
ghost use Rattle.node_core.specs.Ready.{Ready};
ghost use Rattle.node_core.specs.Step.{SparesRoom};
ghost use Rattle.node_core.specs.Steps.{Steps, read_replied, reply_of_read};
ghost use Rattle.node_core.specs.Views.{init_seen, kept_by_read, read_seen, world_seen};

use super::{ReadCall, ReadState};
use crate::init_call::{InitCall, Initialised};
use crate::locking::{Locked, lock};
use crate::origin::Origin;
use crate::reading::read_main;
use shelf::{Parts, Shelf, ValueOf, Want};
use std::alloc::Global;
use std::mem;
use std::sync::Arc;
use step_table::Progress;
use store_traits::{Given, ReadError, Word};
use value_cache::CachedValue;

impl<P: Parts> ReadCall<P> {
    /// The row's own work, of a call that lives.
    pub(super) fn work<W: Word>(
        &mut self,
        alloc: Global,
        shelf: &mut Shelf<P>,
        word: &mut W,
    ) -> Progress<Result<Given<ValueOf<P>>, ReadError>>
        requires running { is_gone (read_seen self.old.state) ≡ false }
        requires word { W.ready (W.made word.old) }
        requires number { W.number word.old ≡ raises_of (shelf_seen shelf.old).list }
        requires node { is_among self.old.origin.call.node (shelf_seen shelf.old).store.nodes ≡ true }
        requires ready { Ready P.C.Codec P.T.Transform P.F.Folder self.old.origin (read_seen self.old.state) (shelf_seen shelf.old) }
        requires lives { is_dead self.old.origin.call.node (shelf_seen shelf.old).list ≡ false }
        ensures steps { Steps P.C.Codec P.T.Transform P.F.Folder self.old.origin (read_seen self.old.state) (shelf_seen shelf.old) (read_replied result) (read_seen self.new.state) (shelf_seen shelf.new) }
        ensures published { kept_by_read self.new.state ≡ published_by (read_seen self.old.state) (read_replied result) (world_seen P.F.Folder (shelf_seen shelf.new)) }
        ensures number { W.number word.new ≡ raises_of (shelf_seen shelf.new).list }
        ensures made { W.made word.new ≡ W.made word.old }
        ensures origin { self.new.origin ≡ self.old.origin }
        // A read without the lock leaves what is kept for the lock's owner.
        ensures spares { is_holding (read_seen self.old.state) ≡ false → SparesRoom P.C.Codec P.T.Transform P.F.Folder self.old.origin (shelf_seen shelf.old) (shelf_seen shelf.new) }
        ensures initialised { self.new.initialised ≡ (self.old.initialised || is_finishing (read_seen self.old.state)) }
    {
        let state = mem::replace(&mut self.state, ReadState::First);
        self.initialised = self.initialised || state.is_finishing();
        let (state, progress) = state.step(self.origin, alloc, shelf, word);
        self.state = state;
        progress
    }

    /// A death ends the call before its step. None is left for which it matters whether that was to initialise the node.
    pub(super) fn die(&mut self, at: u64) -> Progress<Result<Given<ValueOf<P>>, ReadError>>
        ensures answer { result ≡ Progress.Ended (Err (ReadError.Died at)) }
        ensures state { self.new.state ≡ ReadState.Gone None }
        ensures origin { self.new.origin ≡ self.old.origin }
        ensures initialised { self.new.initialised ≡ (self.old.initialised || is_finishing (read_seen self.old.state)) }
    {
        let state = mem::replace(&mut self.state, ReadState::Gone { kept: None });
        self.initialised = self.initialised || state.is_finishing();
        Progress::Ended(Err(ReadError::Died { at }))
    }
}

impl<P: Parts> ReadState<P> {
    /// The next step: the state behind it, and how far the call is.
    fn step<W: Word>(
        self,
        origin: Origin,
        alloc: Global,
        shelf: &mut Shelf<P>,
        word: &mut W,
    ) -> (ReadState<P>, Progress<Result<Given<ValueOf<P>>, ReadError>>)
        requires running { is_gone (read_seen self) ≡ false }
        requires word { W.ready (W.made word.old) }
        requires number { W.number word.old ≡ raises_of (shelf_seen shelf.old).list }
        requires node { is_among origin.call.node (shelf_seen shelf.old).store.nodes ≡ true }
        requires ready { Ready P.C.Codec P.T.Transform P.F.Folder origin (read_seen self) (shelf_seen shelf.old) }
        requires lives { is_dead origin.call.node (shelf_seen shelf.old).list ≡ false }
        ensures steps { Steps P.C.Codec P.T.Transform P.F.Folder origin (read_seen self) (shelf_seen shelf.old) (read_replied result.1) (read_seen result.0) (shelf_seen shelf.new) }
        ensures spares { is_holding (read_seen self) ≡ false → SparesRoom P.C.Codec P.T.Transform P.F.Folder origin (shelf_seen shelf.old) (shelf_seen shelf.new) }
        ensures published { kept_by_read result.0 ≡ published_by (read_seen self) (read_replied result.1) (world_seen P.F.Folder (shelf_seen shelf.new)) }
        ensures number { W.number word.new ≡ raises_of (shelf_seen shelf.new).list }
        ensures made { W.made word.new ≡ W.made word.old }
    {
        match self {
            ReadState::Look | ReadState::First => take(origin, alloc, shelf),
            ReadState::Initialise { init } => initialise(origin, alloc, shelf, init),
            ReadState::Locked => read(origin, alloc, shelf, word),
            ReadState::Unlocked => read_unlocked(origin, alloc, shelf),
            ReadState::Gone { kept: _ } => unreachable!(),
        }
    }

    /// The step tells that the node is initialised.
    fn is_finishing(&self) -> bool
        ensures { result ≡ is_finishing (read_seen self.now) }
    {
        match self {
            ReadState::Initialise { init } => init.is_last(),
            _ => false,
        }
    }
}

/// The lock is taken, if it is free; a node that is initialised reads without it where it is not.
fn take<P: Parts>(
    origin: Origin,
    alloc: Global,
    shelf: &mut Shelf<P>,
) -> (ReadState<P>, Progress<Result<Given<ValueOf<P>>, ReadError>>)
    requires ready { Ready P.C.Codec P.T.Transform P.F.Folder origin (at.First at.Read) (shelf_seen shelf.old) }
    ensures steps { Steps P.C.Codec P.T.Transform P.F.Folder origin (at.First at.Read) (shelf_seen shelf.old) (read_replied result.1) (read_seen result.0) (shelf_seen shelf.new) }
    ensures spares { SparesRoom P.C.Codec P.T.Transform P.F.Folder origin (shelf_seen shelf.old) (shelf_seen shelf.new) }
    ensures unpublished { kept_by_read result.0 ≡ None }
    ensures raises { raises_of (shelf_seen shelf.new).list ≡ raises_of (shelf_seen shelf.old).list }
{
    match lock(origin, alloc, shelf, Want::Read) {
        Ok(Locked::Initialise) => {
            let init = InitCall::Read;
            (ReadState::Initialise { init }, Progress::Moved)
        }
        Ok(Locked::Held) => (ReadState::Locked, Progress::Moved),
        Ok(Locked::Unlocked) => (ReadState::Unlocked, Progress::Moved),
        Ok(Locked::Blocked) => (ReadState::First, Progress::Blocked),
        Err(error) => ended(Err(error), None),
    }
}

/// A step of the initialisation.
fn initialise<P: Parts>(
    origin: Origin,
    alloc: Global,
    shelf: &mut Shelf<P>,
    init: InitCall<P>,
) -> (ReadState<P>, Progress<Result<Given<ValueOf<P>>, ReadError>>)
    requires node { is_among origin.call.node (shelf_seen shelf.old).store.nodes ≡ true }
    requires ready { Ready P.C.Codec P.T.Transform P.F.Folder origin (init_seen at.Read init) (shelf_seen shelf.old) }
    requires lives { is_dead origin.call.node (shelf_seen shelf.old).list ≡ false }
    ensures steps { Steps P.C.Codec P.T.Transform P.F.Folder origin (init_seen at.Read init) (shelf_seen shelf.old) (read_replied result.1) (read_seen result.0) (shelf_seen shelf.new) }
    ensures unpublished { kept_by_read result.0 ≡ None }
    ensures raises { raises_of (shelf_seen shelf.new).list ≡ raises_of (shelf_seen shelf.old).list }
{
    match init.step(origin, alloc, shelf) {
        Initialised::Moved(init) => (ReadState::Initialise { init }, Progress::Moved),
        Initialised::Finished => (ReadState::First, Progress::Moved),
        Initialised::Ended(error) => ended(Err(error), None),
    }
}

/// Main is read under the lock, so that its value is that of the version now: it is given, and to be published.
fn read<P: Parts, W: Word>(
    origin: Origin,
    alloc: Global,
    shelf: &mut Shelf<P>,
    word: &mut W,
) -> (ReadState<P>, Progress<Result<Given<ValueOf<P>>, ReadError>>)
    requires word { W.ready (W.made word.old) }
    requires number { W.number word.old ≡ raises_of (shelf_seen shelf.old).list }
    requires ready { Ready P.C.Codec P.T.Transform P.F.Folder origin (at.Reading at.Serve at.Read) (shelf_seen shelf.old) }
    requires lives { is_dead origin.call.node (shelf_seen shelf.old).list ≡ false }
    ensures steps { Steps P.C.Codec P.T.Transform P.F.Folder origin (at.Reading at.Serve at.Read) (shelf_seen shelf.old) (read_replied result.1) (read_seen result.0) (shelf_seen shelf.new) }
    ensures published { kept_by_read result.0 ≡ published_by (at.Reading at.Serve at.Read) (read_replied result.1) (world_seen P.F.Folder (shelf_seen shelf.new)) }
    ensures number { W.number word.new ≡ raises_of (shelf_seen shelf.new).list }
    ensures made { W.made word.new ≡ W.made word.old }
{
    let given = match read_and_free(origin, alloc, shelf) {
        Ok(given) => given,
        Err(error) => return ended(Err(error), None),
    };
    match Arc::try_clone(&given.value) {
        Ok(value) => {
            let kept = CachedValue::new(word.load(), given.edition, value);
            ended(Ok(given), Some(kept))
        }
        Err(_) => ended(Err(ReadError::NoMemory), None),
    }
}

/// Main is read while another call owns the lock. What version its value is of is not known, so nothing is published.
fn read_unlocked<P: Parts>(
    origin: Origin,
    alloc: Global,
    shelf: &mut Shelf<P>,
) -> (ReadState<P>, Progress<Result<Given<ValueOf<P>>, ReadError>>)
    requires ready { Ready P.C.Codec P.T.Transform P.F.Folder origin (at.Reading at.ServeUnlocked at.Read) (shelf_seen shelf.old) }
    requires lives { is_dead origin.call.node (shelf_seen shelf.old).list ≡ false }
    ensures steps { Steps P.C.Codec P.T.Transform P.F.Folder origin (at.Reading at.ServeUnlocked at.Read) (shelf_seen shelf.old) (read_replied result.1) (read_seen result.0) (shelf_seen shelf.new) }
    ensures spares { SparesRoom P.C.Codec P.T.Transform P.F.Folder origin (shelf_seen shelf.old) (shelf_seen shelf.new) }
    ensures unpublished { kept_by_read result.0 ≡ None }
    ensures raises { raises_of (shelf_seen shelf.new).list ≡ raises_of (shelf_seen shelf.old).list }
{
    ended(read_and_free(origin, alloc, shelf), None)
}

/// What main is. The call ends, and owns nothing.
fn read_and_free<P: Parts>(
    origin: Origin,
    alloc: Global,
    shelf: &mut Shelf<P>,
) -> Result<Given<ValueOf<P>>, ReadError>
    requires lawful { IsTrue P.F.told → MayFault P.T.after origin.call (shelf_seen shelf.old) }
    requires unraised { IsRaised origin.call (shelf_seen shelf.old) → ⊥ }
    ensures ends { EndsRead P.C.Codec P.T.Transform P.F.Folder origin (reply_of_read result) (shelf_seen shelf.old) (shelf_seen shelf.new) }
    ensures spares { SparesRoom P.C.Codec P.T.Transform P.F.Folder origin (shelf_seen shelf.old) (shelf_seen shelf.new) }
    // Behind it one more owner of the value may be refused.
    ensures lacks_memory { IfOk result (λ given. EndsRead P.C.Codec P.T.Transform P.F.Folder origin (at.Failed UpdateError.NoMemory) (shelf_seen shelf.old) (shelf_seen shelf.new)) }
    ensures raises { raises_of (shelf_seen shelf.new).list ≡ raises_of (shelf_seen shelf.old).list }
{
    let given = read_main(origin, alloc, shelf)?;
    shelf.free(origin.call);
    Ok(given)
}

/// The call has ended with this answer, and this is to be published.
fn ended<P: Parts>(
    answer: Result<Given<ValueOf<P>>, ReadError>,
    kept: Option<CachedValue<ValueOf<P>>>,
) -> (ReadState<P>, Progress<Result<Given<ValueOf<P>>, ReadError>>)
    ensures { result ≡ (ReadState.Gone kept, Progress.Ended answer) }
{
    (ReadState::Gone { kept }, Progress::Ended(answer))
}
