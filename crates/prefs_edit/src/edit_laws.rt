//! What edits do, for every edit and every map: each law is the contract of a function that does nothing.
ghost use Rattle.std.specs.Prelude.{◌≡◌, ◌↔◌, ◌++◌, ℕ, List, IsTrue, All};
ghost use Rattle.store_traits.specs.declared.applied.Applied.TheVariants.{Changed};
ghost use Rattle.prefs_model.specs.declared.pref_pair.PrefPair.{PrefPair};
ghost use Rattle.prefs_model.specs.declared.pref_value.PrefValue.{PrefValue};
ghost use Rattle.prefs_model.specs.Map.{IsMap, value_at};
ghost use Rattle.prefs_edit.specs.declared.edit_step.EditStep.{EditStep};
ghost use Rattle.prefs_edit.specs.After.{after_steps, and_then};
ghost use Rattle.prefs_edit.specs.Laws.{IsStep, LeavesAlone};
ghost use Rattle.prefs_edit.specs.Same.{same_value};

/// An accepted edit leaves what a key has, where it does not clear the map and has no step that changes the key.
pub fn keys_left_alone()
    ensures { (steps : List EditStep) (map changed : List PrefPair) (key : List ℕ) → All (LeavesAlone key) steps → after_steps steps map ≡ Changed changed → value_at changed key ≡ value_at map key }
{}

/// What an edit makes of a map is a map.
pub fn maps_stay_maps()
    ensures { (steps : List EditStep) (map changed : List PrefPair) → All IsStep steps → IsMap map → after_steps steps map ≡ Changed changed → IsMap changed }
{}

/// An edit of two parts is the second part on what the first one makes, where that does not refuse.
pub fn edits_in_turn()
    ensures { (first second : List EditStep) (map : List PrefPair) → after_steps (first ++ second) map ≡ and_then (after_steps first map) (after_steps second) }
{}

/// The test of a required value accepts exactly the value itself.
pub fn same_values()
    ensures { (a b : PrefValue) → IsTrue (same_value a b) ↔ (a ≡ b) }
{}
