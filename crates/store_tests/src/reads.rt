//! Reads step by step, beside an update that nobody lets go on. A read that begins may step whatever others have begun.
ghost use Rattle.std.specs.Prelude.{◌≡◌, true};
ghost use Rattle.hist_journal.specs.Folds.{raises_of};
ghost use Rattle.shelf.specs.AddsNode.{is_among};
ghost use Rattle.shelf.specs.ShelfSeen.{shelf_seen};
ghost use Rattle.node_core.specs.Looking.{is_looking};
ghost use Rattle.node_core.specs.Views.{read_seen, state_seen};
ghost use Rattle.store_tests.specs.Alone.{GoesOn, IsNew, TellsOf};

use node_core::{Progress, ReadCall, UpdateCall};
use shelf::{Parts, Shelf, ValueOf};
use std::alloc::Global;
use store_traits::{CallId, Given, ReadError, Step, Word};
use value_cache::{Cache, CachedValue};

/// How a read went.
#[derive(Drop)]
pub struct Went<V> {
    /// Its answer, where it took just the turns that were said.
    pub answer: Option<Result<Given<V>, ReadError>>,
    /// What it had to publish.
    pub kept: Option<CachedValue<V>>,
    /// It had something to publish once more.
    pub is_kept_twice: bool,
}

/// A read takes these turns, each told before it is taken, and ends with the last of them.
fn go_through<P: Parts, W: Word>(
    alloc: Global,
    shelf: &mut Shelf<P>,
    word: &mut W,
    read: &mut ReadCall<P>,
    turns: &[Step],
) -> Option<Result<Given<ValueOf<P>>, ReadError>>
    requires word { W.ready (W.made word.old) }
    requires number { W.number word.old ≡ raises_of (shelf_seen shelf.old).list }
    requires goes_on { GoesOn P.C.Codec P.T.Transform P.F.Folder read.old.origin (read_seen read.old.state) (shelf_seen shelf.old) }
    ensures adds { TellsOf read.old.origin.call (shelf_seen shelf.old).list (shelf_seen shelf.new).list }
    ensures store { (shelf_seen shelf.new).store ≡ (shelf_seen shelf.old).store }
    ensures number { W.number word.new ≡ raises_of (shelf_seen shelf.new).list }
    ensures made { W.made word.new ≡ W.made word.old }
{
    for (place, &turn) in turns.iter().enumerate() {
        if read.at_step() != turn {
            return None;
        }
        match read.step(alloc, shelf, word) {
            Progress::Moved => {}
            Progress::Blocked => return None,
            Progress::Ended(answer) => return Some(answer).filter(|_| place + 1 == turns.len()),
        }
    }
    None
}

/// A read looks in the cache, and takes these turns where it found nothing. Where there are none it has to find something.
fn answer<P: Parts, W: Word>(
    alloc: Global,
    shelf: &mut Shelf<P>,
    word: &mut W,
    cache: &Cache<ValueOf<P>>,
    read: &mut ReadCall<P>,
    turns: &[Step],
) -> Option<Result<Given<ValueOf<P>>, ReadError>>
    requires word { W.ready (W.made word.old) }
    requires number { W.number word.old ≡ raises_of (shelf_seen shelf.old).list }
    requires looking { is_looking read.old.state ≡ true }
    requires goes_on { GoesOn P.C.Codec P.T.Transform P.F.Folder read.old.origin (read_seen read.old.state) (shelf_seen shelf.old) }
    ensures adds { TellsOf read.old.origin.call (shelf_seen shelf.old).list (shelf_seen shelf.new).list }
    ensures store { (shelf_seen shelf.new).store ≡ (shelf_seen shelf.old).store }
    ensures number { W.number word.new ≡ raises_of (shelf_seen shelf.new).list }
    ensures made { W.made word.new ≡ W.made word.old }
{
    if read.at_step() != Step::V1 {
        return None;
    }
    match read.look(cache, word.load()) {
        Ok(None) => go_through(alloc, shelf, word, read, turns),
        Ok(Some(given)) if turns.is_empty() => Some(Ok(given)),
        _ => None,
    }
}

/// A read of which nothing was told looks in the cache, and then takes these turns.
pub fn read<P: Parts, W: Word>(
    alloc: Global,
    shelf: &mut Shelf<P>,
    word: &mut W,
    cache: &Cache<ValueOf<P>>,
    call: CallId,
    turns: &[Step],
) -> Went<ValueOf<P>>
    requires word { W.ready (W.made word.old) }
    requires number { W.number word.old ≡ raises_of (shelf_seen shelf.old).list }
    requires is_new { IsNew call (shelf_seen shelf.old).list }
    requires node { is_among call.node (shelf_seen shelf.old).store.nodes ≡ true }
    ensures adds { TellsOf call (shelf_seen shelf.old).list (shelf_seen shelf.new).list }
    ensures store { (shelf_seen shelf.new).store ≡ (shelf_seen shelf.old).store }
    ensures number { W.number word.new ≡ raises_of (shelf_seen shelf.new).list }
    ensures made { W.made word.new ≡ W.made word.old }
{
    let mut read: ReadCall<P> = ReadCall::new(call);
    let answer = answer(alloc, shelf, word, cache, &mut read, turns);
    let kept = read.kept();
    Went {
        answer,
        kept,
        is_kept_twice: read.kept().is_some(),
    }
}

/// An update goes on by so many steps. Whether none of them was blocked or ended it.
fn go_on_by<P: Parts, W: Word>(
    alloc: Global,
    shelf: &mut Shelf<P>,
    word: &mut W,
    update: &mut UpdateCall<P>,
    steps: u32,
) -> bool
    requires word { W.ready (W.made word.old) }
    requires number { W.number word.old ≡ raises_of (shelf_seen shelf.old).list }
    requires goes_on { GoesOn P.C.Codec P.T.Transform P.F.Folder update.old.origin (state_seen update.old.state) (shelf_seen shelf.old) }
    ensures adds { TellsOf update.old.origin.call (shelf_seen shelf.old).list (shelf_seen shelf.new).list }
    ensures store { (shelf_seen shelf.new).store ≡ (shelf_seen shelf.old).store }
    ensures number { W.number word.new ≡ raises_of (shelf_seen shelf.new).list }
    ensures made { W.made word.new ≡ W.made word.old }
{
    for _step in 0..steps {
        match update.step(alloc, shelf, word) {
            Progress::Moved => {}
            _ => return false,
        }
    }
    true
}

/// An update of which nothing was told takes its first steps, so many, and no more.
pub fn begin_update<P: Parts, W: Word>(
    alloc: Global,
    shelf: &mut Shelf<P>,
    word: &mut W,
    call: CallId,
    edit: P::T,
    steps: u32,
) -> bool
    requires word { W.ready (W.made word.old) }
    requires number { W.number word.old ≡ raises_of (shelf_seen shelf.old).list }
    requires is_new { IsNew call (shelf_seen shelf.old).list }
    requires node { is_among call.node (shelf_seen shelf.old).store.nodes ≡ true }
    ensures adds { TellsOf call (shelf_seen shelf.old).list (shelf_seen shelf.new).list }
    ensures store { (shelf_seen shelf.new).store ≡ (shelf_seen shelf.old).store }
    ensures number { W.number word.new ≡ raises_of (shelf_seen shelf.new).list }
    ensures made { W.made word.new ≡ W.made word.old }
{
    let mut update: UpdateCall<P> = UpdateCall::new(call, edit);
    go_on_by(alloc, shelf, word, &mut update, steps)
}
