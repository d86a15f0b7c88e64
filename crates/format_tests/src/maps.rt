//! Maps, sets, values and keys as their callers use them, and that they cross threads.
use crate::rows::{string_of, text_of, value_of};
use prefs_model::{Entries, MAX_KEY_LEN, PrefKey, PrefMap, PrefPair, PrefText, PrefValue, TextSet};
use std::alloc::Global;
use std::sync::Arc;

fn key_of(alloc: Global, number: u32) -> Option<PrefKey> {
    PrefKey::new(format!(in alloc; "{number:04}").ok()?).ok()
}

fn set(alloc: Global, map: &mut PrefMap, key: u32, value: PrefValue) -> Option<()> {
    map.set(key_of(alloc, key)?, value).ok()
}

fn int_of(map: &PrefMap, key: &PrefKey) -> Option<i32> {
    match map.get(key)? {
        PrefValue::Int(number) => Some(*number),
        _ => None,
    }
}

fn int_at(alloc: Global, map: &PrefMap, key: u32) -> Option<i32> {
    int_of(map, &key_of(alloc, key)?)
}

/// A thousand keys, set downwards and then upwards.
fn thousand(alloc: Global) -> Option<PrefMap> {
    let mut map = PrefMap::new(alloc);
    for number in (0..1000u32).rev() {
        set(alloc, &mut map, number, PrefValue::Int(1))?;
    }
    for number in 0..1000u32 {
        set(alloc, &mut map, number, PrefValue::Int(2))?;
    }
    Some(map)
}

fn stands_at(alloc: Global, map: &PrefMap, place: u32) -> Option<bool> {
    let key = key_of(alloc, place)?;
    let pair = map.pairs().get(place as usize)?;
    Some(pair.key.equal(&key) && int_of(map, &key) == Some(2))
}

fn has_thousand(alloc: Global) -> Option<bool> {
    let map = thousand(alloc)?;
    for place in 0..1000u32 {
        if !stands_at(alloc, &map, place)? {
            return Some(false);
        }
    }
    Some(map.pairs().len() == 1000 && int_at(alloc, &map, 1000).is_none())
}

#[test]
fn sets_and_gets_a_thousand_keys_in_any_order(rt: HostRuntime) {
    assert_eq!(rt; has_thousand(rt.alloc()), Some(true));
}

fn seven_and_eight(alloc: Global) -> Option<PrefMap> {
    let mut map = PrefMap::new(alloc);
    set(alloc, &mut map, 7, PrefValue::Bool(true))?;
    set(alloc, &mut map, 8, PrefValue::Int(8))?;
    Some(map)
}

fn only_the_copy_changes(alloc: Global, map: &PrefMap, key: &PrefKey) -> Option<bool> {
    let mut copy = map.try_clone(alloc).ok()?;
    let is_same = copy.equal(map);
    let is_removed = copy.remove(key) && !copy.remove(key) && !copy.equal(map);
    let has_one = copy.pairs().len() == 1;
    copy.clear();
    let is_empty = copy.equal(&PrefMap::new(alloc));
    Some(is_same && is_removed && has_one && is_empty && map.get(key).is_some())
}

fn copies_change_alone(alloc: Global) -> Option<bool> {
    only_the_copy_changes(alloc, &seven_and_eight(alloc)?, &key_of(alloc, 7)?)
}

#[test]
fn removes_clears_and_clones_maps(rt: HostRuntime) {
    assert_eq!(rt; copies_change_alone(rt.alloc()), Some(true));
}

/// Five hundred keys, each of them twice, with the greater number first.
fn twice(alloc: Global) -> Option<Entries<PrefPair>> {
    let mut entries = Entries::new(alloc);
    for number in (0..1000u32).rev() {
        let key = key_of(alloc, number / 2)?;
        let value = PrefValue::Int(number as i32);
        entries.push(PrefPair { key, value }).ok()?;
    }
    Some(entries)
}

fn last_pair_counts(alloc: Global) -> Option<bool> {
    let map = PrefMap::from_entries(twice(alloc)?).ok()?;
    Some(map.pairs().len() == 500 && int_at(alloc, &map, 3) == Some(6))
}

fn texts_of(alloc: Global, texts: &[&str]) -> Option<Entries<PrefText>> {
    let mut entries = Entries::new(alloc);
    for text in texts {
        entries.push(text_of(alloc, text)?).ok()?;
    }
    Some(entries)
}

fn equal_texts_count_once(alloc: Global) -> Option<bool> {
    let set = TextSet::from_entries(texts_of(alloc, &["b", "a", "b", ""])?).ok()?;
    Some(set.texts().len() == 3 && set.has(&text_of(alloc, "")?))
}

#[test]
fn the_last_entry_of_a_key_counts(rt: HostRuntime) {
    assert_eq!(rt; last_pair_counts(rt.alloc()), Some(true));
    assert_eq!(rt; equal_texts_count_once(rt.alloc()), Some(true));
}

fn insert(alloc: Global, set: &mut TextSet, text: &str) -> Option<bool> {
    set.insert(text_of(alloc, text)?).ok()
}

/// Puts four texts into the set, of which one comes twice.
fn is_filled(alloc: Global, set: &mut TextSet) -> Option<bool> {
    let begins = insert(alloc, set, "z")? && insert(alloc, set, "é")? && insert(alloc, set, "aa")?;
    Some(begins && !insert(alloc, set, "z")? && insert(alloc, set, "b")?)
}

fn is_in_order(set: &TextSet) -> bool {
    let want = ["aa", "b", "z", "é"];
    for (text, want) in set.texts().iter().zip(want) {
        if text.as_str() != want {
            return false;
        }
    }
    set.texts().len() == want.len()
}

fn loses(alloc: Global, set: &mut TextSet, text: &str) -> Option<bool> {
    let gone = text_of(alloc, text)?;
    let is_lost = set.remove(&gone) && !set.remove(&gone) && !set.has(&gone);
    Some(is_lost && gone.into_string().as_str() == text)
}

fn set_has_its_texts(alloc: Global) -> Option<bool> {
    let mut set = TextSet::new(alloc);
    Some(is_filled(alloc, &mut set)? && is_in_order(&set) && loses(alloc, &mut set, "z")?)
}

#[test]
fn a_set_has_each_text_once_in_order_of_bytes(rt: HostRuntime) {
    assert_eq!(rt; set_has_its_texts(rt.alloc()), Some(true));
}

fn is_its_clone(alloc: Global, text: &str) -> Option<bool> {
    let value = value_of(alloc, text)?;
    Some(value.equal(&value.try_clone(alloc).ok()?))
}

fn are_equal(alloc: Global, first: &str, second: &str) -> Option<bool> {
    Some(value_of(alloc, first)?.equal(&value_of(alloc, second)?))
}

#[test]
fn values_are_equal_to_their_clones(rt: HostRuntime) {
    let alloc = rt.alloc();
    assert_eq!(rt; is_its_clone(alloc, r#"texts ["a"]"#), Some(true));
    assert_eq!(rt; is_its_clone(alloc, r#"text "a""#), Some(true));
    assert_eq!(rt;
        are_equal(alloc, r#"text "a""#, r#"texts ["a"]"#),
        Some(false)
    );
    assert_eq!(rt;
        are_equal(alloc, "float 00000000", "float 80000000"),
        Some(false)
    );
    assert_eq!(rt; are_equal(alloc, "int 1", "long 1"), Some(false));
}

/// Whether a key of so many bytes is one, and where it is none, so many are told.
fn is_key(alloc: Global, len: usize) -> Option<bool> {
    match PrefKey::new("k".repeat(alloc, len).ok()?) {
        Ok(key) => Some(key.as_str().len() == len),
        Err(error) if error.len as usize == len => Some(false),
        Err(_) => None,
    }
}

#[test]
fn a_key_has_at_most_1024_bytes(rt: HostRuntime) {
    assert_eq!(rt; MAX_KEY_LEN, 1024);
    for (len, is_one) in [(0, true), (1, true), (1024, true), (1025, false)] {
        assert_eq!(rt; is_key(rt.alloc(), len), Some(is_one), "{len} bytes");
    }
}

fn crosses_threads<T: Send>() {}

fn needs_sync<T: Sync>() {}

#[test]
fn maps_go_to_other_threads(_: HostRuntime) {
    crosses_threads::<PrefMap>();
    needs_sync::<PrefMap>();
    crosses_threads::<Arc<PrefMap>>();
}
