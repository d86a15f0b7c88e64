//! The first update of a session, turn by turn: the node is initialised, the lock is taken and main read, and the new
//! value is written, or the old one is kept. Each part answers whether it went well.
ghost use Rattle.std.specs.Prelude.{◌≡◌, ◌≤◌, [], None, true, length, IsTrue, IfSome};
ghost use Rattle.std.specs.Bool.{OnTrue};
ghost use Rattle.folder_disk.specs.Contents as model;
ghost use Rattle.folder_disk.specs.Room.{HasRoomFor};
ghost use Rattle.hist_journal.specs.declared.seen.BaseSeen.TheVariants.{Held};
ghost use Rattle.hist_journal.specs.Folds.{raises_of, value_of};
ghost use Rattle.shelf.specs.AddsNode.{is_among};
ghost use Rattle.shelf.specs.Changes.{KeepsValue};
ghost use Rattle.shelf.specs.ShelfSeen.{shelf_seen};
ghost use Rattle.shelf.specs.Rules.{rules_of};
ghost use Rattle.store_tests.specs.SingleUpdate.{Rests, Holds, IsRaised, ChangesTo, Makes, initialised, written, kept};

use folder_disk::Folder;
use hist_journal::Kind;
use scratch_rename::{Fresh, Synced};
use shelf::{Loaded, Parts, PlanMade, Shelf, Taken, ValueOf, Want};
use std::alloc::Global;
use store_traits::{CallId, Codec, Given, Step, Transform, Word};

/// The node of the call is initialised.
pub fn initialise<P: Parts>(alloc: Global, shelf: &mut Shelf<P>, call: CallId) -> bool
    requires fresh { (shelf_seen shelf.old).list ≡ [] }
    requires free { (shelf_seen shelf.old).owner ≡ None }
    requires node { is_among call.node (shelf_seen shelf.old).store.nodes ≡ true }
    ensures { OnTrue result (Rests (initialised call) (shelf_seen shelf.old) (shelf_seen shelf.new)) }
{
    if shelf.begin(call, Step::I1, None).is_some() {
        return false;
    }
    match shelf.take(alloc, call, Want::Update) {
        Taken::Init => {}
        _ => return false,
    }
    match shelf.read_main(alloc, call) {
        Loaded::Value(_) => {
            shelf.finish_init(call);
            true
        }
        _ => false,
    }
}

/// The lock is taken, and main is read.
pub fn hold<P: Parts>(
    alloc: Global,
    shelf: &mut Shelf<P>,
    call: CallId,
) -> Option<Given<ValueOf<P>>>
    requires list { (shelf_seen shelf.old).list ≡ initialised call }
    requires free { (shelf_seen shelf.old).owner ≡ None }
    requires node { is_among call.node (shelf_seen shelf.old).store.nodes ≡ true }
    ensures holds { IfSome result (λ given. Holds call (shelf_seen shelf.new)) }
    ensures value { IsTrue P.F.told → IfSome result (λ given. value_of P.T.after (shelf_seen shelf.new).store.base (shelf_seen shelf.new).list ≡ Held given.value.value) }
{
    match shelf.take(alloc, call, Want::Update) {
        Taken::Held => {}
        _ => return None,
    }
    match shelf.read_main(alloc, call) {
        Loaded::Value(given) => Some(given),
        _ => None,
    }
}

/// The update keeps the value: the folder is synced, and the lock is free.
pub fn keep<P: Parts>(shelf: &mut Shelf<P>, call: CallId, edit: P::T) -> bool
    requires holds { Holds call (shelf_seen shelf.old) }
    requires same { IsTrue P.F.told → KeepsValue P.T.after None (value_of P.T.after (shelf_seen shelf.old).store.base (shelf_seen shelf.old).list) edit }
    ensures { OnTrue result (Rests (kept call edit) (shelf_seen shelf.old) (shelf_seen shelf.new)) }
{
    match shelf.sync_folder(call, Some(edit)) {
        Ok(_) => {
            shelf.free(call);
            true
        }
        Err(_) => false,
    }
}

/// The update changes the value: this one is written, and the lock is free.
pub fn write<P: Parts, W: Word>(
    alloc: Global,
    shelf: &mut Shelf<P>,
    word: &mut W,
    call: CallId,
    value: &ValueOf<P>,
    edit: P::T,
) -> bool
    requires ready { W.ready (W.made word.old) }
    requires number { W.number word.old ≡ raises_of (shelf_seen shelf.old).list }
    requires holds { Holds call (shelf_seen shelf.old) }
    requires changes { IsTrue P.F.told → ChangesTo P.T.after (value_of P.T.after (shelf_seen shelf.old).store.base (shelf_seen shelf.old).list) edit value.now }
    ensures { OnTrue result (Rests (written call edit) (shelf_seen shelf.old) (shelf_seen shelf.new)) }
{
    let plan = match shelf.make_plan(alloc, value) {
        PlanMade::Plan(plan) => plan,
        _ => return false,
    };
    shelf.raise(word, call);
    match fill(shelf, call, plan) {
        Some(synced) => store(shelf, call, synced, edit),
        None => false,
    }
}

/// The text of a value is brought to the disk as the scratch file, if it has 4,096 bytes at the most.
fn fill<P: Parts>(shelf: &mut Shelf<P>, call: CallId, plan: Fresh) -> Option<Synced>
    requires raised { IsRaised call (shelf_seen shelf.old) }
    requires room { HasRoomFor (length plan) (P.F.room shelf.old.folder) }
    ensures plan { IfSome result (λ synced. synced ≡ plan) }
    ensures same { IfSome result (λ synced. shelf_seen shelf.new ≡ record (shelf_seen shelf.old) { folder = shelf.new.folder }) }
    ensures scratch { IsTrue P.F.told → IfSome result (λ synced. (P.F.contents shelf.new.folder).scratch ≡ model.Synced plan) }
    ensures rename { IfSome result (λ synced. 1 ≤ (P.F.room shelf.new.folder).renames) }
{
    let filled = match shelf.create(call, plan) {
        Ok(filled) => filled,
        Err(_) => return None,
    };
    let filled = match shelf.append(call, filled) {
        Ok(filled) => filled,
        Err(_) => return None,
    };
    if filled.rest() > 0 {
        return None;
    }
    match shelf.sync_scratch(call, filled) {
        Ok(synced) => Some(synced),
        Err(_) => None,
    }
}

/// The scratch file becomes main, and then the folder is synced.
fn store<P: Parts>(shelf: &mut Shelf<P>, call: CallId, synced: Synced, edit: P::T) -> bool
    requires raised { IsRaised call (shelf_seen shelf.old) }
    requires room { 1 ≤ (P.F.room shelf.old.folder).renames }
    requires scratch { IsTrue P.F.told → (P.F.contents shelf.old.folder).scratch ≡ model.Synced synced }
    requires changes { IsTrue P.F.told → Makes (rules_of P.T.after P.T.weight_of (P.C.encoded shelf.old.codec) (P.C.reads shelf.old.codec) (P.C.default_of shelf.old.codec)) (P.C.is_value shelf.old.codec) (shelf_seen shelf.old).store (shelf_seen shelf.old).list edit synced }
    ensures { OnTrue result (Rests (written call edit) (shelf_seen shelf.old) (shelf_seen shelf.new)) }
{
    match shelf.rename(call, synced, Kind::Edit(edit)) {
        Ok(_) => match shelf.sync_folder(call, None) {
            Ok(_) => {
                shelf.free(call);
                true
            }
            Err(_) => false,
        },
        Err(_) => false,
    }
}
