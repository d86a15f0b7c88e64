ghost use Rattle.std.specs.Prelude.{◌≡◌, OnOk};
ghost use Rattle.prefs_model.specs.Map.{with_value};

use prefs_model::{PrefKey, PrefMap, PrefValue};
use std::alloc::{AllocError, Global};

/// Gives a copy of the key this value.
pub fn set(
    alloc: Global,
    map: &mut PrefMap,
    key: &PrefKey,
    value: PrefValue,
) -> Result<(), AllocError>
    ensures { OnOk result (map.new ≡ with_value map.old key.now value) }
{
    map.set(key.try_clone(alloc)?, value)
}
