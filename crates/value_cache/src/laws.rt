//! That what is kept stays true: the law is the contract of a function that does nothing. `after` is what a transform
//! makes of a value, and `base` where histories begin.
ghost use Rattle.std.specs.Prelude.{◌++◌, IfSome, List, Option};
ghost use Rattle.store_traits.specs.declared.applied.Applied.{Applied};
ghost use Rattle.hist_journal.specs.declared.seen.BaseSeen.{BaseSeen};
ghost use Rattle.hist_journal.specs.declared.seen.EntrySeen.{EntrySeen};
ghost use Rattle.value_cache.specs.Cached.{Cached, published};
ghost use Rattle.value_cache.specs.Truth.{IsOfPrefix, IsValueOf};

/// What is of a history is of a prefix of it, and stays so however the history grows. Where what was kept and what is
/// published are both of prefixes of a history, so is what is kept then.
pub fn caches_stay_true<V, T>()
    ensures now { (after : T → V → Applied V) (base : BaseSeen V) (list : List (EntrySeen V T)) (cached : Cached V)
        → IsValueOf after base list cached → IsOfPrefix after base list cached }
    ensures longer { (after : T → V → Applied V) (base : BaseSeen V) (list more : List (EntrySeen V T)) (cached : Cached V)
        → IsOfPrefix after base list cached → IsOfPrefix after base (list ++ more) cached }
    ensures published { (after : T → V → Applied V) (base : BaseSeen V) (list : List (EntrySeen V T)) (kept : Option (Cached V)) (new : Cached V)
        → IfSome kept (IsOfPrefix after base list) → IsOfPrefix after base list new → IfSome (published kept new) (IsOfPrefix after base list) }
{}
