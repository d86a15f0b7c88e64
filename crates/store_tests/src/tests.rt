//! The first update of a session, turn by turn, at the types of the program and over a folder in memory.
ghost use Rattle.shelf.specs.ShelfSeen.{shelf_seen};
ghost use Rattle.store_tests.specs.SingleUpdate.{IsFresh};

use crate::sessions::{A, Prefs, clear, set, tells, without_file};
use crate::single_update::{hold, initialise, keep, write};
use prefs_edit::Edit;
use shelf::{Parts, Shelf};
use std::alloc::Global;
use store_traits::{Applied, Codec, PlainWord, Transform};

/// The first update, which changes the value as is said or keeps it. Whether it went well.
#[tactic(auto, unfolding(hist_journal::specs::Folds::raises_of))]
fn first_update<P: Parts>(alloc: Global, shelf: &mut Shelf<P>, edit: P::T, is_change: bool) -> bool
    requires { IsFresh A (shelf_seen shelf.old) }
{
    if !initialise(alloc, shelf, A) {
        return false;
    }
    let Some(given) = hold(alloc, shelf, A) else {
        return false;
    };
    let Ok(Applied::Changed(value)) = edit.apply(alloc, &given.value) else {
        return false;
    };
    if shelf.codec().equal(&value, &given.value) {
        return !is_change && keep(shelf, A, edit);
    }
    let mut word = PlainWord::new();
    is_change && write(alloc, shelf, &mut word, A, &value, edit)
}

/// Whether the update goes so, and the history tells these lines.
fn goes(alloc: Global, edit: Option<Edit>, is_change: bool, lines: &str) -> bool {
    let Some(edit) = edit else {
        return false;
    };
    let Some(mut shelf) = without_file(alloc, Vec::new(alloc)) else {
        return false;
    };
    first_update::<Prefs>(alloc, &mut shelf, edit, is_change) && tells(alloc, &shelf, lines)
}

#[test]
fn a_value_is_written(rt: HostRuntime) {
    let lines = "a1 inited\na1 raise\na1 edit\na1 synced\n";
    assert!(rt; goes(rt.alloc(), set(rt.alloc(), "k", 1), true, lines));
}

#[test]
fn a_value_is_kept(rt: HostRuntime) {
    let lines = "a1 inited\na1 same\na1 synced\n";
    assert!(rt; goes(rt.alloc(), clear(rt.alloc()), false, lines));
}
