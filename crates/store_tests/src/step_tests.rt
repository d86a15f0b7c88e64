//! Updates step by step, as the calls of a script, at the types of the program and over a folder in memory.
ghost use Rattle.shelf.specs.ShelfSeen.{shelf_seen};
ghost use Rattle.store_tests.specs.SingleUpdate.{IsFresh};

use crate::alone::{one_after_another, to_its_end};
use crate::sessions::{A, A_NEXT, Prefs, add, main_is, set, tells, with_file, without_file};
use folder_disk::{FolderCall, Planned};
use prefs_edit::Edit;
use shelf::{Parts, Shelf};
use std::alloc::{AllocError, Global};
use store_traits::{PlainWord, UpdateError};

/// An update goes to its end, and has this answer.
#[tactic(auto, unfolding(hist_journal::specs::Folds::raises_of))]
fn is_answered<P: Parts>(
    alloc: Global,
    shelf: &mut Shelf<P>,
    edit: P::T,
    answer: Result<u64, UpdateError>,
) -> bool
    requires { IsFresh A (shelf_seen shelf.old) }
{
    let mut word = PlainWord::new();
    to_its_end(alloc, shelf, &mut word, A, edit) == answer
}

/// So do two of one client, one after another.
#[tactic(auto, unfolding(hist_journal::specs::Folds::raises_of))]
fn are_answered<P: Parts>(
    alloc: Global,
    shelf: &mut Shelf<P>,
    edits: (P::T, P::T),
    first: Result<u64, UpdateError>,
    second: Result<u64, UpdateError>,
) -> bool
    requires { IsFresh A (shelf_seen shelf.old) }
{
    let mut word = PlainWord::new();
    let (edit, next) = edits;
    let told = one_after_another(alloc, shelf, &mut word, (A, edit), (A_NEXT, next));
    told.0 == first && told.1 == second
}

fn is_kept(alloc: Global) -> Option<bool> {
    let file = [0x0a, 7, 0x0a, 1, b'k', 0x12, 2, 0x18, 1];
    let edit = set(alloc, "k", 1)?;
    let mut shelf = with_file(alloc, Vec::from_slice(alloc, &file).ok()?)?;
    let is_answered = is_answered::<Prefs>(alloc, &mut shelf, edit, Ok(0));
    let is_told = is_answered && tells(alloc, &shelf, "a1 inited\na1 same\na1 synced\n");
    Some(is_told && main_is(shelf, &file))
}

#[test]
fn an_equal_value_is_kept(rt: HostRuntime) {
    assert_eq!(rt; is_kept(rt.alloc()), Some(true));
}

/// Whether two updates of a client without a file are answered so, tell this and leave this main.
fn go_so(
    alloc: Global,
    failing: Vec<Planned>,
    edits: (Edit, Edit),
    first: Result<u64, UpdateError>,
    second: Result<u64, UpdateError>,
    told: &str,
    main: &[u8],
) -> bool {
    let Some(mut shelf) = without_file(alloc, failing) else {
        return false;
    };
    are_answered::<Prefs>(alloc, &mut shelf, edits, first, second)
        && tells(alloc, &shelf, told)
        && main_is(shelf, main)
}

fn is_refused(alloc: Global) -> Option<bool> {
    let edits = (set(alloc, "n", i32::MAX)?, add(alloc, "n", 1)?);
    let refused = UpdateError::Refused {
        code: 2,
        edition: 1,
    };
    let told = "a1 inited\na1 raise\na1 edit\na1 synced\n";
    let main = [
        0x0a, 0x0b, 0x0a, 1, b'n', 0x12, 6, 0x18, 0xff, 0xff, 0xff, 0xff, 7,
    ];
    Some(go_so(
        alloc,
        Vec::new(alloc),
        edits,
        Ok(1),
        Err(refused),
        told,
        &main,
    ))
}

#[test]
fn a_sum_past_the_greatest_number_is_refused(rt: HostRuntime) {
    assert_eq!(rt; is_refused(rt.alloc()), Some(true));
}

/// One call of this kind is to fail, the first one.
fn first_fails(alloc: Global, call: FolderCall) -> Result<Vec<Planned>, AllocError> {
    Ok(vec![in alloc; Planned { call, number: 1 }]?)
}

fn is_not_durable(alloc: Global) -> Option<bool> {
    let edit = set(alloc, "k", 1)?;
    let failing = first_fails(alloc, FolderCall::SyncFolder).ok()?;
    let mut shelf = without_file(alloc, failing)?;
    let answer = Err(UpdateError::NotDurable { at: 3 });
    let is_answered = is_answered::<Prefs>(alloc, &mut shelf, edit, answer);
    Some(is_answered && tells(alloc, &shelf, "a1 inited\na1 raise\na1 edit\na1 fault\n"))
}

#[test]
fn a_change_is_not_known_to_last_where_the_folder_is_not_synced(rt: HostRuntime) {
    assert_eq!(rt; is_not_durable(rt.alloc()), Some(true));
}

fn goes_well_again(alloc: Global) -> Option<bool> {
    let edits = (set(alloc, "k", 1)?, set(alloc, "k", 2)?);
    let failing = first_fails(alloc, FolderCall::Rename).ok()?;
    let told = "a1 inited\na1 raise\na1 fault\na2 raise\na2 edit\na2 synced\n";
    let main = [0x0a, 7, 0x0a, 1, b'k', 0x12, 2, 0x18, 2];
    let fault = Err(UpdateError::StorageFault { at: 3 });
    Some(go_so(alloc, failing, edits, fault, Ok(1), told, &main))
}

#[test]
fn the_call_behind_a_failed_rename_goes_well(rt: HostRuntime) {
    assert_eq!(rt; goes_well_again(rt.alloc()), Some(true));
}
