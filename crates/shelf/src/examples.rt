//! Histories of a small store, to check the definitions by: which of them are lawful, what they come to, and which are
//! not. The store holds one number; what is lawful of it is lawful of a map with one key.
ghost use Rattle.std.specs.Prelude.{◌≡◌, ◌∷◌, [], Some, None};
ghost use Rattle.store_traits.specs.declared.applied.Applied.TheVariants.{Refused};
ghost use Rattle.hist_journal.specs.declared.seen.BaseSeen.TheVariants.{Held};
ghost use Rattle.hist_journal.specs.Folds.{edition_of};
ghost use Rattle.shelf.specs.declared.examples.ExampleEdit.TheVariants.{Add};
ghost use Rattle.shelf.specs.Base.{HasItsBase};
ghost use Rattle.shelf.specs.Images.{images};
ghost use Rattle.shelf.specs.Legal.{Legal, value_at};
ghost use Rattle.shelf.specs.ExampleStore as example;
ghost use Rattle.shelf.specs.LawfulExamples as lawful;
ghost use Rattle.shelf.specs.UnlawfulExamples as unlawful;

/// What an update of the example does with the number.
pub enum ExampleEdit {
    Set(u64),
    /// Refused with code 2 where the sum passes 2^31 - 1.
    Add(u64),
}

/// Each of these histories is lawful.
pub fn histories_are_lawful()
    ensures two_nodes { Legal example.meanings example.empty lawful.two_nodes }
    ensures read_between { Legal example.meanings example.empty lawful.read_between }
    ensures equal_value { Legal example.meanings example.holds_one lawful.equal_value }
    ensures death_after_raise { Legal example.meanings example.empty lawful.death_after_raise }
    ensures death_after_rename { Legal example.meanings example.empty lawful.death_after_rename }
    ensures sync_fails { Legal example.meanings example.empty lawful.sync_fails }
    ensures rename_fails { Legal example.meanings example.empty lawful.rename_fails }
    ensures folder_fails { Legal example.meanings example.empty lawful.folder_fails }
    ensures greatest { Legal example.meanings example.empty lawful.greatest }
    ensures replaced { Legal example.meanings example.unreadable lawful.replaced }
    ensures restarted { Legal example.meanings example.empty lawful.restarted }
    ensures former_life { Legal example.meanings example.empty lawful.former_life }
{}

/// What the lawful ones come to: the value and how often it changed, and what a machine stop may leave.
pub fn histories_come_to()
    ensures two_nodes { (value_at example.meanings example.empty lawful.two_nodes ≡ Held 2) × (edition_of lawful.two_nodes ≡ 2) }
    ensures equal_value { (value_at example.meanings example.holds_one lawful.equal_value ≡ Held 1) × (edition_of lawful.equal_value ≡ 0) }
    ensures greatest { value_at example.meanings example.empty lawful.greatest ≡ Held 2147483647 }
    ensures refused { example.after (Add 1) 2147483647 ≡ Refused 2 }
    ensures nothing_yet { images example.meanings example.encoded example.empty lawful.folder_fails ≡ None ∷ [] }
    ensures sync_fails { images example.meanings example.encoded example.empty lawful.sync_fails ≡ None ∷ Some (1 ∷ []) ∷ [] }
    ensures equal_synced { images example.meanings example.encoded example.empty lawful.death_after_rename ≡ Some (1 ∷ []) ∷ [] }
    ensures replaced { images example.meanings example.encoded example.unreadable lawful.replaced ≡ Some (0 ∷ []) ∷ [] }
{}

/// What main reads as: each of these stores has the base of its main.
pub fn stores_have_their_base()
    ensures absent { HasItsBase example.reads 0 example.empty }
    ensures readable { HasItsBase example.reads 0 example.holds_one }
    ensures unreadable { HasItsBase example.reads 0 example.unreadable }
    ensures too_long { HasItsBase example.reads 0 example.too_long }
{}

/// None of these is lawful: of each, the last entry does not fit.
pub fn histories_are_unlawful()
    ensures former_life { Legal example.meanings example.empty unlawful.former_life → ⊥ }
    ensures another_raise { Legal example.meanings example.empty unlawful.another_raise → ⊥ }
    ensures no_raise { Legal example.meanings example.empty unlawful.no_raise → ⊥ }
    ensures two_edits { Legal example.meanings example.empty unlawful.two_edits → ⊥ }
    ensures two_ends { Legal example.meanings example.empty unlawful.two_ends → ⊥ }
    ensures dead_node { Legal example.meanings example.empty unlawful.dead_node → ⊥ }
    ensures after_fault { Legal example.meanings example.empty unlawful.after_fault → ⊥ }
    ensures same_changes { Legal example.meanings example.empty unlawful.same_changes → ⊥ }
    ensures edit_keeps { Legal example.meanings example.holds_one unlawful.edit_keeps → ⊥ }
    ensures refused_edit { Legal example.meanings example.empty unlawful.refused_edit → ⊥ }
    ensures readable_replaced { Legal example.meanings example.empty unlawful.readable_replaced → ⊥ }
    ensures ready_inited { Legal example.meanings example.empty unlawful.ready_inited → ⊥ }
    ensures unready_edit { Legal example.meanings example.empty unlawful.unready_edit → ⊥ }
    ensures unready_restart { Legal example.meanings example.empty unlawful.unready_restart → ⊥ }
    ensures alive_restart { Legal example.meanings example.empty unlawful.alive_restart → ⊥ }
    ensures another_dies { Legal example.meanings example.empty unlawful.another_dies → ⊥ }
    ensures numbers_fall { Legal example.meanings example.empty unlawful.numbers_fall → ⊥ }
    ensures count_stays { Legal example.meanings example.empty unlawful.count_stays → ⊥ }
    ensures settings_taken { Legal example.meanings example.empty unlawful.settings_taken → ⊥ }
    ensures another_replaced { Legal example.meanings example.unreadable unlawful.another_replaced → ⊥ }
    ensures settings_fault { Legal example.meanings example.empty unlawful.settings_fault → ⊥ }
    ensures another_inited { Legal example.meanings example.empty unlawful.another_inited → ⊥ }
    ensures inited_unreadable { Legal example.meanings example.unreadable unlawful.inited_unreadable → ⊥ }
    ensures count_of_start { Legal example.meanings example.failed_once unlawful.count_of_start → ⊥ }
    ensures settings_cleared { Legal example.meanings example.empty unlawful.settings_cleared → ⊥ }
{}
