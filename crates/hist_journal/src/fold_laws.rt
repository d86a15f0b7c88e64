//! What a history comes to once it is longer, for every history: each law is the contract of a function that does
//! nothing. `after` is what a transform makes of a value, and `encoded` how a value is written.
ghost use Rattle.std.specs.Prelude.{◌≡◌, ◌⊎◌, ◌↔◌, ◌+◌, ◌++◌, ◌∷◌, [], ℕ, List, Option, Some, Bool, true, false, unwrap_or, if◌then◌else◌};
ghost use Rattle.store_traits.specs.declared.applied.Applied.{Applied};
ghost use Rattle.store_traits.specs.declared.ids.CallId.{CallId};
ghost use Rattle.store_traits.specs.declared.ids.NodeId.{NodeId};
ghost use Rattle.hist_journal.specs.declared.seen.BaseSeen.{BaseSeen};
ghost use Rattle.hist_journal.specs.declared.seen.BaseSeen.TheVariants.{Held};
ghost use Rattle.hist_journal.specs.declared.seen.EntrySeen.{EntrySeen};
ghost use Rattle.hist_journal.specs.Clearing.{HasClearingFault, HasOwnSynced, IsClearingFault, IsOwnSynced, ends_in_replace, is_replace};
ghost use Rattle.hist_journal.specs.Folds.{edition_of, raises_of, value_after, value_of, main_of, kind_weight, weight_of};
ghost use Rattle.hist_journal.specs.Kinds.{is_call, is_raise, is_change};
ghost use Rattle.hist_journal.specs.ListedJournal.{journal_meaning};
ghost use Rattle.hist_journal.specs.Meaning.{raises};
ghost use Rattle.hist_journal.specs.Nodes.{death_mark, is_dead, ready_mark, is_ready};
ghost use Rattle.hist_journal.specs.Quiet.{Quiet, ends, pending, pending_after};

/// The value of a history goes on from that of its front, and only a value change changes it.
pub fn value_goes_on<V, T>()
    ensures front { (after : T → V → Applied V) (base : BaseSeen V) (front back : List (EntrySeen V T))
        → value_of after base (front ++ back) ≡ value_of after (value_of after base front) back }
    ensures entry { (after : T → V → Applied V) (base : BaseSeen V) (list : List (EntrySeen V T)) (e : EntrySeen V T)
        → value_of after base (list ++ e ∷ []) ≡ value_after after (value_of after base list) e.kind }
    ensures other { (after : T → V → Applied V) (base : BaseSeen V) (list : List (EntrySeen V T)) (e : EntrySeen V T)
        → is_change e.kind ≡ false → value_of after base (list ++ e ∷ []) ≡ value_of after base list }
{}

/// Each value change is one more edition.
pub fn edition_goes_on<V, T>()
    ensures front { (front back : List (EntrySeen V T)) → edition_of (front ++ back) ≡ edition_of front + edition_of back }
    ensures entry { (list : List (EntrySeen V T)) (e : EntrySeen V T) → edition_of (list ++ e ∷ []) ≡ edition_of list + (if is_change e.kind then 1 else 0) }
{}

/// Each Raise counts once, for a room too.
pub fn raises_go_on<V, T>()
    ensures front { (front back : List (EntrySeen V T)) → raises_of (front ++ back) ≡ raises_of front + raises_of back }
    ensures entry { (list : List (EntrySeen V T)) (e : EntrySeen V T) → raises_of (list ++ e ∷ []) ≡ raises_of list + (if is_raise e.kind then 1 else 0) }
    ensures room { (list : List (EntrySeen V T)) → raises journal_meaning list ≡ raises_of list }
{}

/// Each entry adds its own weight.
pub fn weight_goes_on<V, T>()
    ensures front { (transform_weight : T → ℕ) (value_weight : V → ℕ) (front back : List (EntrySeen V T))
        → weight_of transform_weight value_weight (front ++ back)
        ≡ weight_of transform_weight value_weight front + weight_of transform_weight value_weight back }
    ensures entry { (transform_weight : T → ℕ) (value_weight : V → ℕ) (list : List (EntrySeen V T)) (e : EntrySeen V T)
        → weight_of transform_weight value_weight (list ++ e ∷ [])
        ≡ weight_of transform_weight value_weight list + kind_weight transform_weight value_weight e.kind }
{}

/// Main is the text of the value after a value change, and as it was after any other entry.
pub fn main_goes_on<V, T>()
    ensures change { (after : T → V → Applied V) (encoded : V → List ℕ) (base : BaseSeen V) (main : Option (List ℕ)) (list : List (EntrySeen V T)) (e : EntrySeen V T) (v : V)
        → is_change e.kind ≡ true → value_of after base (list ++ e ∷ []) ≡ Held v
        → main_of after encoded base main (list ++ e ∷ []) ≡ Some (encoded v) }
    ensures other { (after : T → V → Applied V) (encoded : V → List ℕ) (base : BaseSeen V) (main : Option (List ℕ)) (list : List (EntrySeen V T)) (e : EntrySeen V T)
        → is_change e.kind ≡ false → main_of after encoded base main (list ++ e ∷ []) ≡ main_of after encoded base main list }
{}

/// A node is what the new entry marks it, else what it was.
pub fn nodes_go_on<V, T>()
    ensures dead { (node : NodeId) (list : List (EntrySeen V T)) (e : EntrySeen V T) → is_dead node (list ++ e ∷ []) ≡ unwrap_or (death_mark node e.kind) (is_dead node list) }
    ensures ready { (node : NodeId) (list : List (EntrySeen V T)) (e : EntrySeen V T) → is_ready node (list ++ e ∷ []) ≡ unwrap_or (ready_mark node e.kind) (is_ready node list) }
{}

/// A clearing fault stays one, and comes with no other entry than a Fault that is one.
pub fn clearing_goes_on<V, T>()
    ensures replace { (call : CallId) (so_far : Bool) (list : List (EntrySeen V T)) (e : EntrySeen V T)
        → ends_in_replace call so_far (list ++ e ∷ []) ≡ (if is_call call e.who then is_replace e.kind else ends_in_replace call so_far list) }
    ensures synced { (call : CallId) (list : List (EntrySeen V T)) (e : EntrySeen V T) → HasOwnSynced call (list ++ e ∷ []) ↔ (HasOwnSynced call list ⊎ IsOwnSynced call list e) }
    ensures front { (front back : List (EntrySeen V T)) → HasClearingFault front → HasClearingFault (front ++ back) }
    ensures fault { (list : List (EntrySeen V T)) (e : EntrySeen V T) → HasClearingFault (list ++ e ∷ []) ↔ (HasClearingFault list ⊎ IsClearingFault list e) }
{}

/// A Raise makes its call the pending one, until an entry ends it.
pub fn pending_goes_on<V, T>()
    ensures entry { (list : List (EntrySeen V T)) (e : EntrySeen V T) → pending (list ++ e ∷ []) ≡ pending_after (pending list) e }
    ensures raise { (list : List (EntrySeen V T)) (e : EntrySeen V T) → is_raise e.kind ≡ true → pending (list ++ e ∷ []) ≡ Some e.who }
    ensures quiet { (list : List (EntrySeen V T)) (e : EntrySeen V T) → Quiet list → is_raise e.kind ≡ false → Quiet (list ++ e ∷ []) }
    ensures ended { (list : List (EntrySeen V T)) (e : EntrySeen V T) (call : CallId) → pending list ≡ Some call → ends call e ≡ true → Quiet (list ++ e ∷ []) }
{}
