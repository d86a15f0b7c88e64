//! What stands in a row: texts, keys, values, maps and bytes.
use prefs_model::{PrefKey, PrefMap, PrefText, PrefValue};
use prefs_text::parse_value;
use std::alloc::{AllocError, Global};

pub fn string_of(alloc: Global, text: &str) -> Result<String, AllocError> {
    String::from_str(alloc, text)
}

pub fn text_of(alloc: Global, text: &str) -> Option<PrefText> {
    Some(PrefText::new(string_of(alloc, text).ok()?))
}

pub fn key_of(alloc: Global, text: &str) -> Option<PrefKey> {
    PrefKey::new(string_of(alloc, text).ok()?).ok()
}

/// The value with this text, as it is printed.
pub fn value_of(alloc: Global, text: &str) -> Option<PrefValue> {
    parse_value(alloc, text).ok()
}

/// Sets a key to a value, which stand in the row with a bar between them.
pub fn put(alloc: Global, map: &mut PrefMap, row: &str) -> Option<()> {
    let (key, value) = row.split_once('|')?;
    map.set(key_of(alloc, key)?, value_of(alloc, value)?).ok()
}

/// The map of these keys and values, a row each.
pub fn map_of(alloc: Global, rows: &[&str]) -> Option<PrefMap> {
    let mut map = PrefMap::new(alloc);
    for row in rows {
        put(alloc, &mut map, row)?;
    }
    Some(map)
}

/// The bytes with these hexadecimal digits.
pub fn bytes_of(alloc: Global, digits: &str) -> Option<Vec<u8>> {
    hex::decode(alloc, digits).ok()
}
