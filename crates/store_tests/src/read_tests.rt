//! Reads of one node beside an update of another, at the types of the program and over a folder in memory.
ghost use Rattle.shelf.specs.ShelfSeen.{shelf_seen};
ghost use Rattle.store_tests.specs.SingleUpdate.{IsFresh};

use crate::reads::{Went, begin_update, read};
use crate::sessions::{A, B, B_LAST, B_NEXT, Prefs, join, of_length, set, tells, without_file};
use folder_disk::{FolderCall, Planned};
use prefs_model::PrefMap;
use shelf::{Parts, Shelf, ValueOf};
use std::alloc::{AllocError, Global};
use store_traits::{PlainWord, ReadError, Step};
use value_cache::{Cache, CachedValue};

/// The turns of a read that initialises its node first.
const FIRST: [Step; 6] = [Step::I1, Step::I2, Step::I3, Step::I6, Step::V2, Step::V3];

/// Those of a later read: whether its node is initialised, the call does not know.
const LATER: [Step; 2] = [Step::I1, Step::V3];

/// An update of this session has raised the version by then, and filled the scratch file: its next step is the rename.
const UP_TO_THE_RENAME: u32 = 10;

/// Two reads of B, one after the other.
#[tactic(auto, unfolding(hist_journal::specs::Folds::raises_of))]
fn two_reads<P: Parts>(alloc: Global, shelf: &mut Shelf<P>) -> (Went<ValueOf<P>>, Went<ValueOf<P>>)
    requires { IsFresh B (shelf_seen shelf.old) }
{
    let mut word = PlainWord::new();
    let cache = Cache::new();
    let first = read(alloc, shelf, &mut word, &cache, B, &FIRST);
    let later = read(alloc, shelf, &mut word, &cache, B_NEXT, &LATER);
    (first, later)
}

/// What the read had to publish goes to the cache.
fn publish<V: Drop>(cache: &mut Cache<V>, kept: Option<CachedValue<V>>) {
    if let Some(kept) = kept {
        cache.publish(kept);
    }
}

/// What comes of a read of B by turns, of one that looks in the cache behind it, and of one while an update of A is
/// under way.
#[derive(Drop)]
struct Beside<V> {
    looked: Went<V>,
    is_under_way: bool,
    past: Went<V>,
}

#[tactic(auto, unfolding(hist_journal::specs::Folds::raises_of))]
fn reads_beside<P: Parts>(alloc: Global, shelf: &mut Shelf<P>, edit: P::T) -> Beside<ValueOf<P>>
    requires a { IsFresh A (shelf_seen shelf.old) }
    requires b { IsFresh B (shelf_seen shelf.old) }
{
    let mut word = PlainWord::new();
    let mut cache = Cache::new();
    let first = read(alloc, shelf, &mut word, &cache, B, &FIRST);
    publish(&mut cache, first.kept);
    let looked = read(alloc, shelf, &mut word, &cache, B_NEXT, &[]);
    let is_under_way = begin_update(alloc, shelf, &mut word, A, edit, UP_TO_THE_RENAME);
    let past = read(alloc, shelf, &mut word, &cache, B_LAST, &LATER);
    Beside {
        looked,
        is_under_way,
        past,
    }
}

/// Whether a read gave the settings of the start, which are none, and had them to publish once or not at all.
fn gave_none(went: &Went<PrefMap>, is_kept: bool) -> bool {
    let is_given = match &went.answer {
        Some(Ok(given)) => given.edition == 0 && given.value.pairs().is_empty(),
        _ => false,
    };
    is_given && keeps_none(went) == is_kept && went.kept.is_some() == is_kept && !went.is_kept_twice
}

/// Whether what a read had to publish are the settings of the start.
fn keeps_none(went: &Went<PrefMap>) -> bool {
    went.kept.as_ref().is_some_and(|kept| {
        kept.version() == 0 && kept.edition() == 0 && kept.value().pairs().is_empty()
    })
}

/// Whether two reads give the value and have it to publish, where so many entries make a full history.
fn read_in(alloc: Global, entries: u64) -> Option<bool> {
    let mut shelf = of_length(alloc, entries)?;
    if !join(alloc, &mut shelf) {
        return None;
    }
    let (first, later) = two_reads::<Prefs>(alloc, &mut shelf);
    let is_told = tells(alloc, &shelf, "b1 inited\n") && shelf.owner().is_none();
    Some(gave_none(&first, true) && gave_none(&later, true) && is_told)
}

#[test]
fn a_read_under_the_lock_gives_the_value_and_publishes_it_once(rt: HostRuntime) {
    assert_eq!(rt; read_in(rt.alloc(), 100), Some(true));
}

#[test]
fn a_full_history_holds_up_no_read_of_a_node_that_is_initialised(rt: HostRuntime) {
    assert_eq!(rt; read_in(rt.alloc(), 1), Some(true));
}

/// Whether a look finds the value that was published, and a read past an update that has raised the version gives the old
/// one, which it does not publish.
fn reads_past(alloc: Global) -> Option<bool> {
    let edit = set(alloc, "k", 1)?;
    let mut shelf = without_file(alloc, Vec::new(alloc))?;
    if !join(alloc, &mut shelf) {
        return None;
    }
    let beside = reads_beside::<Prefs>(alloc, &mut shelf, edit);
    let is_told = tells(alloc, &shelf, "b1 inited\na1 inited\na1 raise\n");
    let is_owned = beside.is_under_way && shelf.owner() == Some(A);
    Some(gave_none(&beside.looked, false) && gave_none(&beside.past, false) && is_told && is_owned)
}

#[test]
fn a_read_past_an_update_gives_the_old_value_and_publishes_nothing(rt: HostRuntime) {
    assert_eq!(rt; reads_past(rt.alloc()), Some(true));
}

/// Main is read twice by B and twice by A before the read past A's update.
fn fifth_read_fails(alloc: Global) -> Result<Vec<Planned>, AllocError> {
    let call = FolderCall::ReadMain;
    Ok(vec![in alloc; Planned { call, number: 5 }]?)
}

fn fails_past(alloc: Global) -> Option<bool> {
    let edit = set(alloc, "k", 1)?;
    let mut shelf = without_file(alloc, fifth_read_fails(alloc).ok()?)?;
    if !join(alloc, &mut shelf) {
        return None;
    }
    let past = reads_beside::<Prefs>(alloc, &mut shelf, edit).past;
    let is_told = tells(alloc, &shelf, "b1 inited\na1 inited\na1 raise\nb3 fault\n");
    let is_fault = match past.answer {
        Some(Err(error)) => error == ReadError::StorageFault { at: 4 },
        _ => false,
    };
    Some(is_fault && is_told && past.kept.is_none() && shelf.owner() == Some(A))
}

#[test]
fn a_read_past_an_update_that_fails_tells_its_fault_and_leaves_the_lock(rt: HostRuntime) {
    assert_eq!(rt; fails_past(rt.alloc()), Some(true));
}
