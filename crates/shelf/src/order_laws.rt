//! What a lawful history says of two of its entries, of which `e` stands behind the other: the clauses on order, counts
//! and raises once more, in words on the list alone.
ghost use Rattle.std.specs.Prelude.{◌≡◌, ◌⊎◌, ◌<◌, ◌≤◌, ◌-◌, ◌^◌, ◌++◌, ◌∷◌, ℕ, List, true, false};
ghost use Rattle.std.specs.List.{list_any};
ghost use Rattle.hist_journal.specs.declared.device.Device.{Device};
ghost use Rattle.hist_journal.specs.declared.seen.EntrySeen.{EntrySeen};
ghost use Rattle.hist_journal.specs.declared.seen.KindSeen.TheVariants.{Fault};
ghost use Rattle.hist_journal.specs.Kinds.{is_call, is_change};
ghost use Rattle.shelf.specs.declared.store.Store.{Store};
ghost use Rattle.shelf.specs.Entries.{is_any, is_fault_or_death, is_own, is_update, is_update_end};
ghost use Rattle.shelf.specs.Legal.{Legal};
ghost use Rattle.shelf.specs.Meanings.{Meanings};
ghost use Rattle.shelf.specs.OpenRaise.{EndsInRaise};

/// The call numbers of a client never fall.
pub fn numbers_never_fall<V, T, M>()
    ensures { (m : Meanings V T) (s : Store V M) (front middle back : List (EntrySeen V T)) (f e : EntrySeen V T) → Legal m s (front ++ f ∷ (middle ++ e ∷ back))
        → f.who.client.0 ≡ e.who.client.0 → f.who.number ≤ e.who.number }
{}

/// Behind a Fault or a Death stand entries of other calls only.
pub fn calls_end<V, T, M>()
    ensures { (m : Meanings V T) (s : Store V M) (front middle back : List (EntrySeen V T)) (f e : EntrySeen V T) → Legal m s (front ++ f ∷ (middle ++ e ∷ back))
        → is_fault_or_death f.kind ≡ true → is_call e.who f.who ≡ false }
{}

/// Behind an Edit or a Same stands one entry of its call at most, which ends it.
pub fn updates_end_once<V, T, M>()
    ensures { (m : Meanings V T) (s : Store V M) (front middle back : List (EntrySeen V T)) (f e : EntrySeen V T) → Legal m s (front ++ f ∷ (middle ++ e ∷ back))
        → is_own is_update e.who f ≡ true → (is_update_end e.kind ≡ true) × (list_any (is_own is_any e.who) middle ≡ false) }
{}

/// The counts of a device rise, until they are at their end.
pub fn counts_rise<V, T, M>()
    ensures { (m : Meanings V T) (s : Store V M) (front middle back : List (EntrySeen V T)) (f e : EntrySeen V T) → Legal m s (front ++ f ∷ (middle ++ e ∷ back))
        → (device : Device) (earlier later : ℕ) → f.kind ≡ Fault device earlier → e.kind ≡ Fault device later → (earlier < later) ⊎ (later ≡ 2 ^ 64 - 1) }
{}

/// What stands before a value change ends in a Raise of its call that nothing has spent.
pub fn changes_are_raised<V, T, M>()
    ensures { (m : Meanings V T) (s : Store V M) (before back : List (EntrySeen V T)) (e : EntrySeen V T) → Legal m s (before ++ e ∷ back)
        → is_change e.kind ≡ true → EndsInRaise e.who before }
{}
