//! What holds of every lawful history: each law is the contract of a function that does nothing. `m` is what transforms
//! mean, `s` the store, and `encoded` how a value is written.
ghost use Rattle.std.specs.List.{All};
ghost use Rattle.std.specs.Prelude.{ℕ, ◌≡◌, ◌↔◌, ◌++◌, ◌∷◌, [], List, Some, true, false};
ghost use Rattle.store_traits.specs.declared.ids.CallId.{CallId};
ghost use Rattle.hist_journal.specs.declared.seen.EntrySeen.{EntrySeen};
ghost use Rattle.hist_journal.specs.Folds.{edition_of, raises_of, value_of};
ghost use Rattle.hist_journal.specs.Kinds.{is_change};
ghost use Rattle.hist_journal.specs.Quiet.{Quiet, pending};
ghost use Rattle.shelf.specs.declared.store.Store.{Store};
ghost use Rattle.shelf.specs.Decided.{Decided};
ghost use Rattle.shelf.specs.Images.{IsMainSinceSynced, images, is_synced, kept_front, main_at, unkept};
ghost use Rattle.shelf.specs.Legal.{Fits, Legal};
ghost use Rattle.shelf.specs.Meanings.{Meanings};
ghost use Rattle.shelf.specs.OpenRaise.{has_open_raise};

/// A prefix of a lawful history is lawful.
pub fn prefix_is_legal<V, T, M>()
    ensures { (m : Meanings V T) (s : Store V M) (front back : List (EntrySeen V T)) → Legal m s (front ++ back) → Legal m s front }
{}

/// A history with one more entry is lawful exactly where it is lawful and the entry fits it; and the empty one is.
pub fn longer_is_legal<V, T, M>()
    ensures empty { (m : Meanings V T) (s : Store V M) → Legal m s [] }
    ensures entry { (m : Meanings V T) (s : Store V M) (list : List (EntrySeen V T)) (e : EntrySeen V T)
        → Legal m s (list ++ e ∷ []) ↔ (Legal m s list × Fits m s list e) }
{}

/// A value change comes by the pending call. In a lawful history the call with an open Raise is the pending one: no other
/// call can have changed the value behind it.
pub fn open_is_pending<V, T, M>()
    ensures change { (m : Meanings V T) (s : Store V M) (before : List (EntrySeen V T)) (e : EntrySeen V T) → Fits m s before e → is_change e.kind ≡ true → pending before ≡ Some e.who }
    ensures exactly { (m : Meanings V T) (s : Store V M) (list : List (EntrySeen V T)) (call : CallId) → Legal m s list → (has_open_raise call list ≡ true) ↔ (pending list ≡ Some call) }
{}

/// Whether a history is lawful is told by a test, for values of which one tells whether they are the same.
pub fn lawful_has_a_test<V, T, M>()
    ensures { (same : (a b : V) → Decided (a ≡ b)) (m : Meanings V T) (s : Store V M) (list : List (EntrySeen V T)) → Decided (Legal m s list) }
{}

/// Freshness: where a quiet prefix of a lawful history has all its raises, nothing behind it changed the value. So whoever
/// kept a value with such a prefix, and finds the version unchanged, has the value of now.
pub fn quiet_is_fresh<V, T, M>()
    ensures value { (m : Meanings V T) (s : Store V M) (kept later : List (EntrySeen V T)) → Legal m s (kept ++ later) → Quiet kept → raises_of (kept ++ later) ≡ raises_of kept
        → value_of m.after s.base (kept ++ later) ≡ value_of m.after s.base kept }
    ensures edition { (m : Meanings V T) (s : Store V M) (kept later : List (EntrySeen V T)) → Legal m s (kept ++ later) → Quiet kept → raises_of (kept ++ later) ≡ raises_of kept
        → edition_of (kept ++ later) ≡ edition_of kept }
{}

/// What a machine stop may leave, once the history is longer: main alone after a Synced, one more after a value change,
/// and the same after any other entry.
pub fn images_go_on<V, T, M>()
    ensures empty { (m : Meanings V T) (encoded : V → List ℕ) (s : Store V M) → images m encoded s [] ≡ s.main ∷ [] }
    ensures synced { (m : Meanings V T) (encoded : V → List ℕ) (s : Store V M) (list : List (EntrySeen V T)) (e : EntrySeen V T) → is_synced e.kind ≡ true → images m encoded s (list ++ e ∷ []) ≡ main_at m encoded s (list ++ e ∷ []) ∷ [] }
    ensures change { (m : Meanings V T) (encoded : V → List ℕ) (s : Store V M) (list : List (EntrySeen V T)) (e : EntrySeen V T) → is_change e.kind ≡ true → images m encoded s (list ++ e ∷ []) ≡ images m encoded s list ++ main_at m encoded s (list ++ e ∷ []) ∷ [] }
    ensures other { (m : Meanings V T) (encoded : V → List ℕ) (s : Store V M) (list : List (EntrySeen V T)) (e : EntrySeen V T) → is_change e.kind ≡ false → is_synced e.kind ≡ false → images m encoded s (list ++ e ∷ []) ≡ images m encoded s list }
    ensures parts { (list : List (EntrySeen V T)) → kept_front list ++ unkept list ≡ list }
{}

/// Each of them is main after a prefix that has every Synced of the history: what was acknowledged is in it.
pub fn images_hold_what_is_synced<V, T, M>()
    ensures { (m : Meanings V T) (encoded : V → List ℕ) (s : Store V M) (list : List (EntrySeen V T)) → All (IsMainSinceSynced m encoded s list) (images m encoded s list) }
{}

/// Of a store, a lawful history speaks of the base, the handler's value and the counts at the start alone.
pub fn lawful_by_the_start<V, T, M, N>()
    ensures { (m : Meanings V T) (s : Store V M) (t : Store V N) → t.base ≡ s.base → t.handler ≡ s.handler → t.folder.count ≡ s.folder.count → t.legacy.count ≡ s.legacy.count
        → (list : List (EntrySeen V T)) → Legal m s list → Legal m t list }
{}
