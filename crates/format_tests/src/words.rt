//! Lines and their words, and what words read as.
use script_words::{
    WordsError, edit_of, is_name, is_reserved, key_of, line_words, number_of, text_of,
};
use std::alloc::{AllocError, Global};

/// Lines, and behind a `=` their words with a `|` between each two.
const LINES: [&str; 22] = [
    "=",
    "node n1=node|n1",
    "a  b =a||b|",
    " =|",
    "a\tb\rc d=a\tb\rc|d",
    "say\"a b\" c=say\"a|b\"|c",
    r#""a b" c="a b"|c"#,
    r#""a b"c d="a b"c|d"#,
    r#""a b"" c" d="a b""|c"|d"#,
    r#""a \" b" c="a \" b"|c"#,
    r#""a \\" b" c="a \\"|b"|c"#,
    r#"x "a b c=x|"a b c"#,
    r#""a \="a \"#,
    r#"x ["a", "b"] c=x|["a", "b"]|c"#,
    "[ ] [] c=[ ]|[]|c",
    r#"["] ", "\"]"] c=["] ", "\"]"]|c"#,
    r#"["a"]b c=["a"]b|c"#,
    r#"["a ] b] c=["a ] b] c"#,
    "[ [ ] ] c=[ [ ]|]|c",
    r#"["a" ; b=["a" ; b"#,
    "{\"a b\"} c={\"a|b\"}|c",
    "é \u{a0} x=é|\u{a0}|x",
];

fn joined_words(alloc: Global, line: &str) -> Result<String, AllocError> {
    line_words(alloc, line)?.as_slice().join(alloc, "|")
}

fn has_words(alloc: Global, row: &str) -> Option<bool> {
    let (line, words) = row.split_once('=')?;
    Some(joined_words(alloc, line).ok()?.as_str() == words)
}

#[test]
fn lines_have_words(rt: HostRuntime) {
    for row in &LINES {
        assert_eq!(rt; has_words(rt.alloc(), row), Some(true), "{row}");
    }
}

/// Words, whether each has the form of a name, and whether it is taken.
const NAMES: [(&str, bool, bool); 25] = [
    ("a", true, false),
    ("n1", true, false),
    ("abcdefghijklmnop", true, false),
    ("abcdefghijklmnopq", false, false),
    ("a123456789012345", true, false),
    ("", false, false),
    ("1n", false, false),
    ("N", false, false),
    ("aB", false, false),
    ("a_b", false, false),
    ("a-b", false, false),
    ("é", false, false),
    ("once", true, false),
    ("step", true, false),
    ("many", true, false),
    ("int", true, false),
    ("file", true, true),
    ("empty", true, true),
    ("on", true, true),
    ("rename", true, true),
    ("restart", true, true),
    ("sync", true, true),
    ("read_main", false, true),
    ("legacy_clear", false, true),
    ("File", false, false),
];

#[test]
fn names_have_their_form(rt: HostRuntime) {
    for (word, has_form, is_taken) in &NAMES {
        assert_eq!(rt; is_name(word), *has_form, "{word}");
        assert_eq!(rt; is_reserved(word), *is_taken, "{word}");
    }
}

/// Words that are no number from 0 to 1,000.
const NO_NUMBERS: [&str; 9] = [
    "1001",
    "01",
    "+1",
    "-0",
    "-1",
    "",
    "1 ",
    "0x1",
    "99999999999999999999",
];

#[test]
fn numbers_are_within_bounds(rt: HostRuntime) {
    for word in &NO_NUMBERS {
        assert_eq!(rt; number_of(word, 0, 1000), None, "{word}");
    }
    assert_eq!(rt; number_of("0", 0, 1000), Some(0));
    assert_eq!(rt; number_of("1000", 0, 1000), Some(1000));
    assert_eq!(rt; number_of("0", 1, 4_294_967_295), None);
    assert_eq!(rt;
        number_of("4294967295", 1, 4_294_967_295),
        Some(4_294_967_295)
    );
    assert_eq!(rt;
        number_of("18446744073709551615", 0, u64::MAX),
        Some(u64::MAX)
    );
}

/// Words that are an edit.
const EDITS: [&str; 14] = [
    "clear",
    r#"set "k" int 5"#,
    r#"set "k" text "a b""#,
    r#"set "" texts ["b", "a" ,"b"]"#,
    r#"set "k" texts [ ]"#,
    r#"require "k" bool true"#,
    r#"remove "k""#,
    r#"toggle "k""#,
    r#"addint "k" -2147483648"#,
    r#"addlong "k" 9223372036854775807"#,
    r#"insert "k" "\u0041""#,
    r#"erase "k" "a;""#,
    "many clear ; clear",
    r#"many set "k;" texts [";"] ; remove "k""#,
];

/// Words in which the name of a step or of a kind is none.
const UNKNOWN: [&str; 11] = [
    "",
    " clear",
    "Clear",
    "jump",
    ";",
    r#""clear""#,
    r#"set "k" jump"#,
    "set x jump 5 6",
    r#"set "k"  int 5"#,
    r#"many set "k" int ; jump"#,
    "many clear ;  ; clear",
];

/// Words that are no edit for another cause.
const BAD: [&str; 35] = [
    "clear ",
    r#"set "k" int"#,
    r#"set "k" int "#,
    r#"set "k" int  5"#,
    r#"set "k" int 5 6"#,
    r#"set "k" int 05"#,
    r#"set "k" int 2147483648"#,
    r#"set "k" texts ["a",]"#,
    "set \"k\" texts [\t]",
    r#"set "k" texts ["a"]b"#,
    r#"set "k" text "a"b"#,
    r#"set "k" text "a b"#,
    "set k int 5",
    r#"set "k"k int 5"#,
    "set",
    r#"remove "k" jump"#,
    "remove",
    r#"addint "k" 2147483648"#,
    r#"addint "k" -2147483649"#,
    r#"addlong "k" 9223372036854775808"#,
    r#"addint "k" +1"#,
    r#"addint "k" "1""#,
    r#"insert "k" x"#,
    r#"insert "k""#,
    r#"set "k" int 5 ; clear"#,
    "many",
    "many clear",
    "many clear ;",
    "many ; clear",
    "many clear clear",
    "many clear ; many clear ; clear",
    "many clear ; many jump ; clear",
    r#"many set "k" int ; clear"#,
    "many clear ;clear",
    "many clear ; ;",
];

/// Why the words of the line are no edit.
fn fault(alloc: Global, line: &str) -> Option<WordsError> {
    match line_words(alloc, line) {
        Ok(words) => edit_of(alloc, words.as_slice()).err(),
        Err(_) => Some(WordsError::NoMemory),
    }
}

#[test]
fn edits_are_read(rt: HostRuntime) {
    for line in &EDITS {
        assert_eq!(rt; fault(rt.alloc(), line), None, "{line}");
    }
    for line in &UNKNOWN {
        assert_eq!(rt;
            fault(rt.alloc(), line),
            Some(WordsError::UnknownWord),
            "{line}"
        );
    }
    for line in &BAD {
        assert_eq!(rt;
            fault(rt.alloc(), line),
            Some(WordsError::BadValue),
            "{line}"
        );
    }
}

#[test]
fn no_words_are_no_edit(rt: HostRuntime) {
    assert_eq!(rt; edit_of(rt.alloc(), &[]).err(), Some(WordsError::BadValue));
}

/// Whether the line is an edit, where a line that is none has a bad value.
fn is_edit(alloc: Global, line: &str) -> Option<bool> {
    match fault(alloc, line) {
        None => Some(true),
        Some(WordsError::BadValue) => Some(false),
        Some(_) => None,
    }
}

fn clears(alloc: Global, more: usize) -> Result<String, AllocError> {
    let behind = " ; clear".repeat(alloc, more)?;
    format!(in alloc; "many clear{behind}")
}

fn clears_are_edit(alloc: Global, more: usize) -> Option<bool> {
    is_edit(alloc, clears(alloc, more).ok()?.as_str())
}

#[test]
fn an_edit_has_at_most_16_steps(rt: HostRuntime) {
    assert_eq!(rt; clears_are_edit(rt.alloc(), 15), Some(true));
    assert_eq!(rt; clears_are_edit(rt.alloc(), 16), Some(false));
}

fn long_set(alloc: Global, len: usize) -> Result<String, AllocError> {
    let text = "a".repeat(alloc, len)?;
    format!(in alloc; "set \"k\" text \"{text}\"")
}

fn long_set_is_edit(alloc: Global, len: usize) -> Option<bool> {
    is_edit(alloc, long_set(alloc, len).ok()?.as_str())
}

#[test]
fn an_edit_weighs_at_most_65536(rt: HostRuntime) {
    assert_eq!(rt; long_set_is_edit(rt.alloc(), 65519), Some(true));
    assert_eq!(rt; long_set_is_edit(rt.alloc(), 65520), Some(false));
}

fn long_key(alloc: Global, len: usize) -> Result<String, AllocError> {
    let key = "k".repeat(alloc, len)?;
    format!(in alloc; "\"{key}\"")
}

fn is_key(alloc: Global, len: usize) -> Option<bool> {
    Some(key_of(alloc, long_key(alloc, len).ok()?.as_str()).is_ok())
}

#[test]
fn keys_have_at_most_1024_bytes(rt: HostRuntime) {
    assert_eq!(rt; is_key(rt.alloc(), 1024), Some(true));
    assert_eq!(rt; is_key(rt.alloc(), 1025), Some(false));
}

/// Words that are no quoted text.
const UNQUOTED: [&str; 5] = [r#""a"b"#, r#""a"#, "a", "", "\"\t\""];

#[test]
fn texts_are_quoted(rt: HostRuntime) {
    for word in &UNQUOTED {
        assert_eq!(rt;
            text_of(rt.alloc(), word).err(),
            Some(WordsError::BadValue),
            "{word}"
        );
    }
    assert_eq!(rt; text_of(rt.alloc(), r#""""#).err(), None);
    assert_eq!(rt; text_of(rt.alloc(), r#""a\nb""#).err(), None);
}
