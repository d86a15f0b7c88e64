ghost use Rattle.std.specs.Prelude.{◌≡◌, ◌↔◌, IsTrue};
ghost use Rattle.prefs_model.specs.Map.{value_at};
ghost use Rattle.prefs_edit.specs.Same.{is_value};

use prefs_model::{PrefKey, PrefMap, PrefValue};

/// Whether the key has this value.
pub fn has_this(map: &PrefMap, key: &PrefKey, value: &PrefValue) -> bool
    ensures { result ≡ is_value (value_at map.now key.now) value.now }
{
    match map.get(key) {
        Some(found) => found.equal(value),
        None => false,
    }
}
