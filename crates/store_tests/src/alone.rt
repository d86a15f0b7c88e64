//! One update at a time over a shelf, to its end.
ghost use Rattle.std.specs.Prelude.{◌≡◌, ◌<◌, None, true};
ghost use Rattle.hist_journal.specs.Folds.{raises_of};
ghost use Rattle.shelf.specs.AddsNode.{is_among};
ghost use Rattle.shelf.specs.ShelfSeen.{shelf_seen};
ghost use Rattle.node_core.specs.Views.{state_seen};
ghost use Rattle.store_tests.specs.Alone.{IsAlone, IsNew, TellsOf};
ghost use Rattle.store_tests.specs.SingleUpdate.{IsFresh};

use node_core::{Progress, UpdateCall, restart};
use shelf::{Parts, RestartError, Shelf};
use std::alloc::Global;
use store_traits::{CallId, NodeId, UpdateError, Word};

/// An update goes on to its end, where nobody else has begun.
fn go_on<P: Parts, W: Word>(
    alloc: Global,
    shelf: &mut Shelf<P>,
    word: &mut W,
    update: &mut UpdateCall<P>,
) -> Result<u64, UpdateError>
    requires word { W.ready (W.made word.old) }
    requires number { W.number word.old ≡ raises_of (shelf_seen shelf.old).list }
    requires alone { IsAlone P.C.Codec P.T.Transform P.F.Folder update.old.origin update.old.initialised (state_seen update.old.state) (shelf_seen shelf.old) }
    ensures free { (shelf_seen shelf.new).owner ≡ None }
    ensures adds { TellsOf update.old.origin.call (shelf_seen shelf.old).list (shelf_seen shelf.new).list }
    ensures store { (shelf_seen shelf.new).store ≡ (shelf_seen shelf.old).store }
    ensures number { W.number word.new ≡ raises_of (shelf_seen shelf.new).list }
    ensures made { W.made word.new ≡ W.made word.old }
{
    loop {
        match update.step(alloc, shelf, word) {
            Progress::Moved => {}
            Progress::Blocked => unreachable!(),
            Progress::Ended(answer) => return answer,
        }
    }
}

/// An update of which nothing was told goes step by step to its end, where nobody else has begun.
pub fn to_its_end<P: Parts, W: Word>(
    alloc: Global,
    shelf: &mut Shelf<P>,
    word: &mut W,
    call: CallId,
    edit: P::T,
) -> Result<u64, UpdateError>
    requires word { W.ready (W.made word.old) }
    requires number { W.number word.old ≡ raises_of (shelf_seen shelf.old).list }
    requires is_new { IsNew call (shelf_seen shelf.old).list }
    requires free { (shelf_seen shelf.old).owner ≡ None }
    requires node { is_among call.node (shelf_seen shelf.old).store.nodes ≡ true }
    ensures free { (shelf_seen shelf.new).owner ≡ None }
    ensures adds { TellsOf call (shelf_seen shelf.old).list (shelf_seen shelf.new).list }
    ensures store { (shelf_seen shelf.new).store ≡ (shelf_seen shelf.old).store }
    ensures number { W.number word.new ≡ raises_of (shelf_seen shelf.new).list }
    ensures made { W.made word.new ≡ W.made word.old }
{
    let mut update: UpdateCall<P> = UpdateCall::new(call, edit);
    go_on(alloc, shelf, word, &mut update)
}

/// Two updates of one client, the second once the first has ended, in a session in which nothing has happened.
pub fn one_after_another<P: Parts, W: Word>(
    alloc: Global,
    shelf: &mut Shelf<P>,
    word: &mut W,
    one: (CallId, P::T),
    next: (CallId, P::T),
) -> (Result<u64, UpdateError>, Result<u64, UpdateError>)
    requires word { W.ready (W.made word.old) }
    requires number { W.number word.old ≡ raises_of (shelf_seen shelf.old).list }
    requires fresh { IsFresh one.0 (shelf_seen shelf.old) }
    requires node { next.0.node ≡ one.0.node }
    requires later { one.0.number < next.0.number }
    ensures free { (shelf_seen shelf.new).owner ≡ None }
    ensures store { (shelf_seen shelf.new).store ≡ (shelf_seen shelf.old).store }
    ensures number { W.number word.new ≡ raises_of (shelf_seen shelf.new).list }
    ensures made { W.made word.new ≡ W.made word.old }
{
    let first = to_its_end(alloc, shelf, word, one.0, one.1);
    let second = to_its_end(alloc, shelf, word, next.0, next.1);
    (first, second)
}

/// A node is brought back by a call of which nothing was told, where nobody owns the lock.
pub fn bring_back<P: Parts>(
    alloc: Global,
    shelf: &mut Shelf<P>,
    call: CallId,
    node: NodeId,
) -> Result<u64, RestartError>
    requires is_new { IsNew call (shelf_seen shelf.old).list }
    requires free { (shelf_seen shelf.old).owner ≡ None }
    requires home { is_among call.node (shelf_seen shelf.old).store.nodes ≡ true }
    requires node { is_among node (shelf_seen shelf.old).store.nodes ≡ true }
    ensures free { (shelf_seen shelf.new).owner ≡ None }
    ensures adds { TellsOf call (shelf_seen shelf.old).list (shelf_seen shelf.new).list }
    ensures store { (shelf_seen shelf.new).store ≡ (shelf_seen shelf.old).store }
    ensures raises { raises_of (shelf_seen shelf.new).list ≡ raises_of (shelf_seen shelf.old).list }
{
    restart(alloc, shelf, call, node)
}
