//! The text of each value and of maps, and which value a text is.
use crate::rows::{map_of, put, string_of, text_of, value_of};
use prefs_model::{PrefKey, PrefMap, PrefPair, PrefValue, TextSet};
use prefs_text::{
    ValueKind, ValueTextError, map_text, parse_value, plain_value, push_pair, push_value,
    value_text,
};
use std::alloc::{AllocError, Global};

fn prints(alloc: Global, value: &PrefValue, text: &str) -> Option<bool> {
    Some(value_text(alloc, value).ok()?.as_str() == text)
}

/// Whether the value that the text is has the other text.
fn prints_as(alloc: Global, text: &str, want: &str) -> Option<bool> {
    prints(alloc, &value_of(alloc, text)?, want)
}

const PRINTED: [&str; 23] = [
    "bool true",
    "bool false",
    "int 0",
    "int 10",
    "int 2147483647",
    "int -2147483648",
    "long 0",
    "long -7",
    "long 9223372036854775807",
    "long -9223372036854775808",
    "float 00000000",
    "float 3fc00000",
    "float ffffffff",
    "double 0000000000000000",
    "double bff8000000000000",
    "double 0123456789abcdef",
    r#"text """#,
    r#"text "a b""#,
    r#"text "\"\\/\b\f\n\r\t\u0000\u001f""#,
    "text \"\u{7f}\u{e9}\u{2028}\u{1f600}\"",
    "texts []",
    r#"texts [""]"#,
    r#"texts ["a","b \"c\"","é"]"#,
];

#[test]
fn printed_texts_read_back(rt: HostRuntime) {
    for text in &PRINTED {
        assert_eq!(rt; prints_as(rt.alloc(), text, text), Some(true), "{text}");
    }
}

const SPELLED: [(&str, &str); 7] = [
    ("texts [ ]", "texts []"),
    (r#"texts ["b", "a" ,"b"]"#, r#"texts ["a","b"]"#),
    (r#"texts [  "a"  ]"#, r#"texts ["a"]"#),
    (r#"texts ["\u0061","a"]"#, r#"texts ["a"]"#),
    (r#"text "\u0061\/\u0009""#, r#"text "a/\t""#),
    (r#"text "\u00e9\u007f""#, "text \"\u{e9}\u{7f}\""),
    (r#"text "\ud83d\ude00""#, "text \"\u{1f600}\""),
];

#[test]
fn other_spellings_read_as_the_same(rt: HostRuntime) {
    for (text, want) in &SPELLED {
        assert_eq!(rt; prints_as(rt.alloc(), text, want), Some(true), "{text}");
    }
}

fn refusal(alloc: Global, text: &str) -> Option<ValueTextError> {
    parse_value(alloc, text).err()
}

const NO_KINDS: [&str; 10] = [
    "",
    " ",
    " int 5",
    "integer 5",
    "Int 5",
    "int\t5",
    "bool\n",
    "null",
    "text\"a\"",
    "5",
];

#[test]
fn words_that_name_no_kind(rt: HostRuntime) {
    let wanted = Some(ValueTextError::UnknownKind);
    for text in &NO_KINDS {
        assert_eq!(rt; refusal(rt.alloc(), text), wanted, "{text}");
    }
}

const BAD_SCALARS: [&str; 30] = [
    "bool",
    "bool ",
    "bool True",
    "bool 1",
    "bool true ",
    "int",
    "int ",
    "int  5",
    "int 5 ",
    "int -",
    "int -0",
    "int +1",
    "int 01",
    "int -01",
    "int 0x1",
    "int 2147483648",
    "int -2147483649",
    "int 99999999999999999999",
    "long 9223372036854775808",
    "long -9223372036854775809",
    "long +0",
    "float",
    "float 3fc0000",
    "float 03fc00000",
    "float 3FC00000",
    "float 3fc0000g",
    "double 3fc00000",
    "double 3ff800000000000",
    "double 03ff8000000000000",
    "double 3FF8000000000000",
];

#[test]
fn bad_scalars(rt: HostRuntime) {
    let wanted = Some(ValueTextError::BadText);
    for text in &BAD_SCALARS {
        assert_eq!(rt; refusal(rt.alloc(), text), wanted, "{text}");
    }
}

const BAD_TEXTS: [&str; 30] = [
    "text",
    "text ",
    "text a",
    "text \"",
    r#"text "a"#,
    r#"text a""#,
    r#"text  "a""#,
    r#"text "a" "#,
    r#"text "a""b""#,
    r#"text "\x""#,
    r#"text "\ud800""#,
    "text \"\t\"",
    r#"text ["a"]"#,
    "texts",
    "texts ",
    "texts [",
    "texts [\t]",
    "texts [\n\"a\"]",
    "texts [\"a\",\r\"b\"]",
    r#"texts ["a""#,
    r#"texts "a"]"#,
    r#"texts ["a",]"#,
    r#"texts ["a" "b"]"#,
    r#"texts ["a"] "#,
    r#"texts  ["a"]"#,
    "texts [1]",
    r#"texts ["a",null]"#,
    r#"texts [["a"]]"#,
    r#"texts "a""#,
    r#"texts ["a"]["b"]"#,
];

#[test]
fn bad_texts_and_lists(rt: HostRuntime) {
    let wanted = Some(ValueTextError::BadText);
    for text in &BAD_TEXTS {
        assert_eq!(rt; refusal(rt.alloc(), text), wanted, "{text}");
    }
}

#[test]
fn bits_are_printed_highest_first(rt: HostRuntime) {
    let float = PrefValue::Float(0x3fc0_0000);
    assert_eq!(rt; prints(rt.alloc(), &float, "float 3fc00000"), Some(true));
    let double = PrefValue::Double(0xbff8_0000_0000_0000);
    assert_eq!(rt;
        prints(rt.alloc(), &double, "double bff8000000000000"),
        Some(true)
    );
}

fn set_of(alloc: Global, texts: &[&str]) -> Option<TextSet> {
    let mut set = TextSet::new(alloc);
    for text in texts {
        set.insert(text_of(alloc, text)?).ok()?;
    }
    Some(set)
}

fn set_is_in_order(alloc: Global) -> Option<bool> {
    let set = set_of(alloc, &["é", "b", "a", "b"])?;
    prints(alloc, &PrefValue::Texts(set), r#"texts ["a","b","é"]"#)
}

#[test]
fn sets_are_printed_in_order(rt: HostRuntime) {
    assert_eq!(rt; set_is_in_order(rt.alloc()), Some(true));
}

/// Whether the map of these rows has the text.
fn map_prints(alloc: Global, rows: &[&str], text: &str) -> Option<bool> {
    let map = map_of(alloc, rows)?;
    Some(map_text(alloc, &map).ok()?.as_str() == text)
}

const QUOTED_KEY: &str = r#"a "b"|bool false"#;

#[test]
fn maps_are_printed_in_order(rt: HostRuntime) {
    let alloc = rt.alloc();
    assert_eq!(rt; map_prints(alloc, &[], "{}"), Some(true));
    let text = r#"{"volume" int 5}"#;
    assert_eq!(rt; map_prints(alloc, &["volume|int 5"], text), Some(true));
    let text = r#"{"a \"b\"" bool false, "volume" int 5}"#;
    assert_eq!(rt;
        map_prints(alloc, &["volume|int 5", QUOTED_KEY], text),
        Some(true)
    );
}

fn volume(alloc: Global) -> Option<PrefPair> {
    let key = PrefKey::new(string_of(alloc, "volume").ok()?).ok()?;
    let value = PrefValue::Int(5);
    Some(PrefPair { key, value })
}

fn appended(alloc: Global, pair: &PrefPair) -> Result<String, AllocError> {
    let mut text = string_of(alloc, "> ")?;
    push_pair(&mut text, pair)?;
    text.push_str("; ")?;
    push_value(&mut text, &pair.value)?;
    Ok(text)
}

fn both_are_appended(alloc: Global) -> Option<bool> {
    let text = appended(alloc, &volume(alloc)?).ok()?;
    Some(text.as_str() == r#"> "volume" int 5; int 5"#)
}

#[test]
fn pairs_and_values_are_appended(rt: HostRuntime) {
    assert_eq!(rt; both_are_appended(rt.alloc()), Some(true));
}

/// Kinds and bare words, and whether the word is a value of the kind.
const BARE: [(ValueKind, &str, bool); 10] = [
    (ValueKind::Bool, "false", true),
    (ValueKind::Int, "-7", true),
    (ValueKind::Long, "2147483648", true),
    (ValueKind::Float, "7f800000", true),
    (ValueKind::Double, "7ff0000000000000", true),
    (ValueKind::Int, "2147483648", false),
    (ValueKind::Int, "", false),
    (ValueKind::Text, "a", false),
    (ValueKind::Text, "\"a\"", false),
    (ValueKind::Texts, "[]", false),
];

#[test]
fn bare_words_are_scalars_alone(rt: HostRuntime) {
    for (kind, word, is_value) in &BARE {
        assert_eq!(rt; plain_value(*kind, word).is_some(), *is_value, "{word}");
    }
}
