//! What whoever runs several calls goes by: each law is the contract of a function that does nothing.
ghost use Rattle.std.specs.List.{list_any};
ghost use Rattle.std.specs.Prelude.{◌≡◌, ◌==◌, List, false, Some, None};
ghost use Rattle.hist_journal.specs.declared.seen.BaseSeen.TheVariants.{Held};
ghost use Rattle.hist_journal.specs.declared.seen.EntrySeen.{EntrySeen};
ghost use Rattle.hist_journal.specs.Folds.{edition_of, raises_of, value_of};
ghost use Rattle.store_traits.specs.declared.ids.CallId.{CallId};
ghost use Rattle.step_table.specs.declared.progress.Progress.{Progress};
ghost use Rattle.shelf.specs.declared.store.Store.{Store};
ghost use Rattle.shelf.specs.CallOrder.{is_later};
ghost use Rattle.step_table.specs.Calls.{Ask, At, Call, First, Reply};
ghost use Rattle.shelf.specs.Deaths.{has_died};
ghost use Rattle.shelf.specs.Legal.{Legal};
ghost use Rattle.shelf.specs.Meanings.{Meanings};
ghost use Rattle.shelf.specs.Meanwhile.{NoneOf};
ghost use Rattle.shelf.specs.ShelfSeen.{ShelfSeen};
ghost use Rattle.step_table.specs.Turn.{Turn, has_died_by};
ghost use Rattle.step_table.specs.World.{Turned, begin};
ghost use Rattle.shelf.specs.Rules.{rules_of};
ghost use Rattle.value_cache.specs.Cached.{Cached};
ghost use Rattle.value_cache.specs.Truth.{IsOfPrefix};
ghost use Rattle.node_core.specs.declared.origin.Origin.{Origin};
ghost use Rattle.node_core.specs.Between.{Between};
ghost use Rattle.node_core.specs.Knows.{Knows};
ghost use Rattle.node_core.specs.Ready.{Ready};
ghost use Rattle.node_core.specs.Step.{MayStep};

use shelf::Parts;
use store_traits::{Codec, Transform};

/// A call of which nothing was told, and no later one of its client either, is ready for its first step, whatever it asks
/// for.
pub fn new_calls_are_ready<P: Parts>()
    ensures { (call : CallId) (ask : Ask P.T) (s : ShelfSeen P.C P.F P.C.Value P.T) → NoneOf call s.list → list_any (is_later call) s.list ≡ false
        → Ready P.C.Codec P.T.Transform P.F.Folder (record { call = call; since = None }) (First ask) s }
{}

/// A call that may step is ready as the shelf is now, where its node has not died since it began.
pub fn calls_stay_ready<P: Parts>()
    ensures { (origin : Origin) (at : At P.C.Value P.T) (now : ShelfSeen P.C P.F P.C.Value P.T)
        → MayStep P.C.Codec P.T.Transform P.F.Folder origin at now → has_died origin.call.node origin.since now.list ≡ false
        → Ready P.C.Codec P.T.Transform P.F.Folder origin at now }
{}

/// A turn leaves a call of another client what it has: it adds no entry of that call, and where that call owns the lock,
/// it disturbs nothing of it unless their node dies.
pub fn turns_spare_other_calls<C: Codec, T: Transform<Value = C::Value>, M>()
    ensures { (c : C) (s : Store C.Value M) (t : Turned C.Value T) (gave : Progress (Reply C.Value)) (other : Call C.Value T)
        → Turn (rules_of T.after T.weight_of (C.encoded c) (C.reads c) (C.default_of c)) s t gave
        → (has_died_by (begin t) ≡ false → Knows (rules_of T.after T.weight_of (C.encoded c) (C.reads c) (C.default_of c)) s t.world t.call)
        → Knows (rules_of T.after T.weight_of (C.encoded c) (C.reads c) (C.default_of c)) s t.world other
        → (other.id.client.0 == t.call.id.client.0) ≡ false → Between other t.world t.world_after }
{}

/// A look finds what is now: a value that was kept with a quiet prefix of a lawful history, and whose version is the
/// number of its raises, is the value of that history, and its edition that of the history.
pub fn looks_find_what_is_now<V, T, M>()
    ensures value { (m : Meanings V T) (s : Store V M) (list : List (EntrySeen V T)) (kept : Cached V) → Legal m s list → IsOfPrefix m.after s.base list kept → kept.version ≡ raises_of list
        → value_of m.after s.base list ≡ Held kept.value }
    ensures edition { (m : Meanings V T) (s : Store V M) (list : List (EntrySeen V T)) (kept : Cached V) → Legal m s list → IsOfPrefix m.after s.base list kept → kept.version ≡ raises_of list
        → edition_of list ≡ kept.edition }
{}
