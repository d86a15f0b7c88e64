//! What holds of every turn, whatever codec and transforms the store has: each law is the contract of a function that does
//! nothing. Most of them hold of any effect that is applied, so no row of the table is named in their proofs.
ghost use Rattle.std.specs.Prelude.{◌≡◌, ◌≢◌, ◌+◌, false, true, Some, IsTrue};
ghost use Rattle.store_traits.specs.declared.ids.CallId.{CallId};
ghost use Rattle.store_traits.specs.declared.update_error.UpdateError.TheVariants.{NoMemory};
ghost use Rattle.file_lock.specs.Owner.{IsAnother};
ghost use Rattle.hist_journal.specs.Folds.{raises_of};
ghost use Rattle.shelf.specs.declared.store.Store.{Store};
ghost use Rattle.step_table.specs.Calls.{Call, Failed, Gone, Reply, is_locking};
ghost use Rattle.step_table.specs.declared.progress.Progress.{Progress};
ghost use Rattle.step_table.specs.declared.progress.Progress.TheVariants.{Blocked, Ended};
ghost use Rattle.step_table.specs.Laws.{AddsOwn, LeavesLock, OwnsAlive, WritesAChange};
ghost use Rattle.step_table.specs.Turn.{Turn, has_died_by, dies_now};
ghost use Rattle.step_table.specs.World.{Turned, begin, is_ready_now};
ghost use Rattle.shelf.specs.Rules.{rules_of};

use store_traits::{Codec, Transform};

/// A turn is blocked exactly where no death ends the call, it is a first turn that needs the lock, and another call owns
/// the lock. Then the world is as it was.
pub fn turns_wait_exactly<C: Codec, T: Transform<Value = C::Value>, M>()
    ensures blocked { (c : C) (s : Store C.Value M) (t : Turned C.Value T) → Turn (rules_of T.after T.weight_of (C.encoded c) (C.reads c) (C.default_of c)) s t Blocked
        → (has_died_by (begin t) ≡ false) × (dies_now (begin t) ≡ false) × (is_locking (is_ready_now t) t.call.at ≡ true) × IsAnother t.world.owner t.call.id × (t.world_after ≡ t.world) }
    ensures exactly { (c : C) (s : Store C.Value M) (t : Turned C.Value T) (gave : Progress (Reply C.Value))
        → Turn (rules_of T.after T.weight_of (C.encoded c) (C.reads c) (C.default_of c)) s t gave
        → has_died_by (begin t) ≡ false → dies_now (begin t) ≡ false → is_locking (is_ready_now t) t.call.at ≡ true → IsAnother t.world.owner t.call.id → gave ≡ Blocked }
{}

/// A turn that ends with want of memory leaves folder and history as they were.
pub fn want_of_memory_changes_nothing<C: Codec, T: Transform<Value = C::Value>, M>()
    ensures { (c : C) (s : Store C.Value M) (t : Turned C.Value T)
        → Turn (rules_of T.after T.weight_of (C.encoded c) (C.reads c) (C.default_of c)) s t (Ended (Failed NoMemory))
        → (IsTrue t.world.told → t.world_after.folder ≡ t.world.folder) × (t.world_after.history ≡ t.world.history) }
{}

/// A call that ends owns nothing, also where its node dies in that turn. Where the node died before, the turn changes nothing
/// of the world.
pub fn ended_calls_own_nothing<C: Codec, T: Transform<Value = C::Value>, M>()
    ensures ended { (c : C) (s : Store C.Value M) (t : Turned C.Value T) (reply : Reply C.Value)
        → Turn (rules_of T.after T.weight_of (C.encoded c) (C.reads c) (C.default_of c)) s t (Ended reply) → t.call_after.at ≡ Gone }
    ensures alive { (c : C) (s : Store C.Value M) (t : Turned C.Value T) (reply : Reply C.Value)
        → Turn (rules_of T.after T.weight_of (C.encoded c) (C.reads c) (C.default_of c)) s t (Ended reply) → has_died_by (begin t) ≡ false → t.world_after.owner ≢ Some t.call.id }
    ensures dead { (c : C) (s : Store C.Value M) (t : Turned C.Value T) (gave : Progress (Reply C.Value))
        → Turn (rules_of T.after T.weight_of (C.encoded c) (C.reads c) (C.default_of c)) s t gave → has_died_by (begin t) ≡ true → (t.world_after ≡ t.world) × (t.call_after.at ≡ Gone) }
{}

/// Whoever owns the lock has not died since it began: a turn keeps this of its own call, and of every other.
pub fn owners_are_alive<C: Codec, T: Transform<Value = C::Value>, M>()
    ensures own { (c : C) (s : Store C.Value M) (t : Turned C.Value T) (gave : Progress (Reply C.Value))
        → Turn (rules_of T.after T.weight_of (C.encoded c) (C.reads c) (C.default_of c)) s t gave → WritesAChange t.call.at → OwnsAlive t.world t.call → OwnsAlive t.world_after t.call_after }
    ensures others { (c : C) (s : Store C.Value M) (t : Turned C.Value T) (gave : Progress (Reply C.Value)) (other : Call C.Value T)
        → Turn (rules_of T.after T.weight_of (C.encoded c) (C.reads c) (C.default_of c)) s t gave → WritesAChange t.call.at → other.id ≢ t.call.id → OwnsAlive t.world other → OwnsAlive t.world_after other }
{}

/// A turn only adds entries of its own call, at the end of the history.
pub fn turns_only_add<C: Codec, T: Transform<Value = C::Value>, M>()
    ensures { (c : C) (s : Store C.Value M) (t : Turned C.Value T) (gave : Progress (Reply C.Value))
        → Turn (rules_of T.after T.weight_of (C.encoded c) (C.reads c) (C.default_of c)) s t gave → AddsOwn t }
{}

/// A turn gives the lock to nobody but its own call, and takes it from no call of another node.
pub fn turns_leave_the_lock<C: Codec, T: Transform<Value = C::Value>, M>()
    ensures { (c : C) (s : Store C.Value M) (t : Turned C.Value T) (gave : Progress (Reply C.Value))
        → Turn (rules_of T.after T.weight_of (C.encoded c) (C.reads c) (C.default_of c)) s t gave → LeavesLock t }
{}

/// The version word goes on to count the raises of the history.
pub fn versions_count_raises<C: Codec, T: Transform<Value = C::Value>, M>()
    ensures { (c : C) (s : Store C.Value M) (t : Turned C.Value T) (gave : Progress (Reply C.Value))
        → Turn (rules_of T.after T.weight_of (C.encoded c) (C.reads c) (C.default_of c)) s t gave
        → t.world.version ≡ raises_of t.world.history → t.world_after.version ≡ raises_of t.world_after.history }
{}
