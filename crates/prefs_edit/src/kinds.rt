//! What a key has, read as one kind of value: none where it has another kind.
ghost use Rattle.std.specs.Prelude.{◌≡◌, IfOk};
ghost use Rattle.prefs_model.specs.Map.{value_at};
ghost use Rattle.prefs_edit.specs.Kinds.{bool_of, int_of, long_of, texts_of};

use prefs_model::{PrefKey, PrefMap, PrefValue, TextSet};
use std::alloc::{AllocError, Global};

/// A missing key counts as false.
pub fn bool_at(map: &PrefMap, key: &PrefKey) -> Option<bool>
    ensures { result ≡ bool_of (value_at map.now key.now) }
{
    match map.get(key) {
        None => Some(false),
        Some(PrefValue::Bool(b)) => Some(*b),
        Some(_) => None,
    }
}

/// A missing key counts as 0.
pub fn int_at(map: &PrefMap, key: &PrefKey) -> Option<i32>
    ensures { result ≡ int_of (value_at map.now key.now) }
{
    match map.get(key) {
        None => Some(0),
        Some(PrefValue::Int(number)) => Some(*number),
        Some(_) => None,
    }
}

/// A missing key counts as 0.
pub fn long_at(map: &PrefMap, key: &PrefKey) -> Option<i64>
    ensures { result ≡ long_of (value_at map.now key.now) }
{
    match map.get(key) {
        None => Some(0),
        Some(PrefValue::Long(number)) => Some(*number),
        Some(_) => None,
    }
}

/// A copy of the set. A missing key counts as the empty set.
pub fn texts_at(alloc: Global, map: &PrefMap, key: &PrefKey) -> Result<Option<TextSet>, AllocError>
    ensures { IfOk result (λ texts. texts ≡ texts_of (value_at map.now key.now)) }
{
    match map.get(key) {
        None => Ok(Some(TextSet::new(alloc))),
        Some(PrefValue::Texts(texts)) => Ok(Some(texts.try_clone(alloc)?)),
        Some(_) => Ok(None),
    }
}
