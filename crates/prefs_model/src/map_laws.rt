//! What a map has at each key, for every map: each law is the contract of a function that does nothing.
ghost use Rattle.std.specs.Prelude.{◌≡◌, ◌≢◌, ℕ, List, Some, None, is_some, All};
ghost use Rattle.prefs_model.specs.declared.pref_pair.PrefPair.{PrefPair};
ghost use Rattle.prefs_model.specs.declared.pref_value.PrefValue.{PrefValue};
ghost use Rattle.prefs_model.specs.Value.{IsValue};
ghost use Rattle.prefs_model.specs.Map.{IsKey, IsMap, has_value, value_at, with_value, without_value};

/// Each pair of a map gives the value at its key, and a key is there where it has a value.
pub fn pairs_are_values()
    ensures values { (pairs : List PrefPair) → IsMap pairs → All (λ pair. value_at pairs pair.key ≡ Some pair.value) pairs }
    ensures keys { (pairs : List PrefPair) (key : List ℕ) → has_value pairs key ≡ is_some (value_at pairs key) }
{}

/// Maps that have the same value at each key are the same map.
pub fn one_map()
    ensures { (a b : List PrefPair) → IsMap a → IsMap b → ((key : List ℕ) → value_at a key ≡ value_at b key) → a ≡ b }
{}

/// What a map has once a key was set.
pub fn values_after_set()
    ensures map { (pairs : List PrefPair) (key : List ℕ) (value : PrefValue) → IsMap pairs → IsKey key → IsValue value → IsMap (with_value pairs key value) }
    ensures this_key { (pairs : List PrefPair) (key : List ℕ) (value : PrefValue) → value_at (with_value pairs key value) key ≡ Some value }
    ensures other_keys { (pairs : List PrefPair) (key : List ℕ) (value : PrefValue) (other : List ℕ) → other ≢ key → value_at (with_value pairs key value) other ≡ value_at pairs other }
    ensures same_value { (pairs : List PrefPair) (key : List ℕ) (value : PrefValue) → IsMap pairs → value_at pairs key ≡ Some value → with_value pairs key value ≡ pairs }
{}

/// What a map has once a key was removed.
pub fn values_after_remove()
    ensures map { (pairs : List PrefPair) (key : List ℕ) → IsMap pairs → IsMap (without_value pairs key) }
    ensures this_key { (pairs : List PrefPair) (key : List ℕ) → value_at (without_value pairs key) key ≡ None }
    ensures other_keys { (pairs : List PrefPair) (key other : List ℕ) → other ≢ key → value_at (without_value pairs key) other ≡ value_at pairs other }
    ensures absent { (pairs : List PrefPair) (key : List ℕ) → value_at pairs key ≡ None → without_value pairs key ≡ pairs }
{}
