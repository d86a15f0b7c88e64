//! A node dies by its plan and is brought back by a call of another, at the types of the program and over a folder in memory.
ghost use Rattle.shelf.specs.ShelfSeen.{shelf_seen};
ghost use Rattle.store_tests.specs.SingleUpdate.{IsFresh};

use crate::alone::{bring_back, to_its_end};
use crate::sessions::{A, A_NEXT, B, B_NEXT, Prefs, join, main_is, set, tells, with_death};
use shelf::{Parts, RestartError, Shelf};
use std::alloc::Global;
use store_traits::{PlainWord, Step, UpdateError};

/// How it went: an update of A, two calls of B that are to bring its node back, and an update of A behind them.
#[derive(Drop)]
struct Went {
    first: Result<u64, UpdateError>,
    restarted: Result<u64, RestartError>,
    restarted_twice: Result<u64, RestartError>,
    second: Result<u64, UpdateError>,
}

#[tactic(auto, unfolding(hist_journal::specs::Folds::raises_of))]
fn dies_and_comes_back<P: Parts>(alloc: Global, shelf: &mut Shelf<P>, edits: (P::T, P::T)) -> Went
    requires a { IsFresh A (shelf_seen shelf.old) }
    requires b { IsFresh B (shelf_seen shelf.old) }
{
    let mut word = PlainWord::new();
    let (edit, next) = edits;
    let first = to_its_end(alloc, shelf, &mut word, A, edit);
    let restarted = bring_back(alloc, shelf, B, A.node);
    let restarted_twice = bring_back(alloc, shelf, B_NEXT, A.node);
    let second = to_its_end(alloc, shelf, &mut word, A_NEXT, next);
    Went {
        first,
        restarted,
        restarted_twice,
        second,
    }
}

/// Whether the first update ends by the death before this step, as the entry of this number, and all goes on behind it.
fn dies_before(alloc: Global, step: Step, at: u32, told: &str) -> Option<bool> {
    let edits = (set(alloc, "k", 1)?, set(alloc, "k", 2)?);
    let mut shelf = with_death(alloc, A, step)?;
    if !join(alloc, &mut shelf) {
        return None;
    }
    let went = dies_and_comes_back::<Prefs>(alloc, &mut shelf, edits);
    let at = u64::from(at);
    let is_dead = went.first == Err(UpdateError::Died { at });
    let is_back = went.restarted == Ok(at + 1);
    let is_back_once = went.restarted_twice == Err(RestartError::NotDead);
    let main = [0x0a, 7, 0x0a, 1, b'k', 0x12, 2, 0x18, 2];
    let goes_on = went.second == Ok(1) && tells(alloc, &shelf, told) && main_is(shelf, &main);
    Some(is_dead && is_back && is_back_once && goes_on)
}

#[test]
fn a_node_that_died_initialised_begins_anew(rt: HostRuntime) {
    let told = "a1 inited\na1 death\nb1 restart\na2 inited\na2 raise\na2 edit\na2 synced\n";
    assert_eq!(rt; dies_before(rt.alloc(), Step::U1, 2, told), Some(true));
}

#[test]
fn the_lock_of_a_node_that_died_is_free(rt: HostRuntime) {
    let told =
        "a1 inited\na1 raise\na1 death\nb1 restart\na2 inited\na2 raise\na2 edit\na2 synced\n";
    assert_eq!(rt; dies_before(rt.alloc(), Step::U7, 3, told), Some(true));
}
