//! What each step makes of the settings, what it weighs, and how many steps an edit has.
use crate::rows::{key_of, map_of, put};
use prefs_edit::{Edit, EditError, EditStep};
use prefs_model::{PrefMap, PrefText, PrefValue};
use script_words::{edit_of, line_words};
use std::alloc::{AllocError, Global};
use store_traits::{Applied, Transform};

/// What each edit begins with: a key for each kind that a step can change, and a text.
const SETTINGS: [&str; 5] = [
    "bool|bool true",
    "int|int 2147483647",
    "long|long -9223372036854775808",
    r#"set|texts ["a"]"#,
    r#"text|text "a""#,
];

/// The edit with these words.
fn edit_from(alloc: Global, words: &str) -> Option<Edit> {
    edit_of(alloc, line_words(alloc, words).ok()?.as_slice()).ok()
}

/// The settings as they were, no settings, one setting alone, or the settings with one of them changed.
fn wanted_map(alloc: Global, mut old: PrefMap, want: &str) -> Option<PrefMap> {
    match want {
        "same" => return Some(old),
        "empty" => old.clear(),
        "only int 3" => {
            old.clear();
            put(alloc, &mut old, "int|int 3")?;
        }
        row => put(alloc, &mut old, row)?,
    }
    Some(old)
}

fn is_code(want: &str, code: u32) -> Option<bool> {
    Some(want.strip_prefix("code ")?.parse() == Ok(code))
}

/// Whether the transform makes what is wanted of the settings, called through its bound.
fn makes<T: Transform<Value = PrefMap>>(alloc: Global, edit: &T, want: &str) -> Option<bool> {
    let old = map_of(alloc, &SETTINGS)?;
    match edit.apply(alloc, &old).ok()? {
        Applied::Changed(map) => Some(map.equal(&wanted_map(alloc, old, want)?)),
        Applied::Refused(code) => is_code(want, code),
    }
}

/// Words of an edit with one step, and what it makes of the settings: a setting that it changes, or the code of its refusal.
const OUTCOMES: [&str; 30] = [
    r#"set "new" int 1|new|int 1"#,
    r#"set "int" bool false|int|bool false"#,
    r#"addint "int" -1|int|int 2147483646"#,
    r#"addint "new" -2147483648|new|int -2147483648"#,
    r#"addlong "long" 9223372036854775807|long|long -1"#,
    r#"addlong "new" -7|new|long -7"#,
    r#"toggle "bool"|bool|bool false"#,
    r#"toggle "new"|new|bool true"#,
    r#"insert "set" "b"|set|texts ["b", "a"]"#,
    r#"insert "new" "b"|new|texts ["b"]"#,
    r#"erase "set" "a"|set|texts []"#,
    "clear|empty",
    r#"remove "new"|same"#,
    r#"addint "int" 1|code 2"#,
    r#"addint "int" 0|same"#,
    r#"addint "long" 1|code 1"#,
    r#"addlong "long" -1|code 2"#,
    r#"addlong "int" 1|code 1"#,
    r#"toggle "int"|code 1"#,
    r#"insert "set" "a"|same"#,
    r#"insert "text" "a"|code 1"#,
    r#"erase "set" "b"|same"#,
    r#"erase "new" "a"|same"#,
    r#"erase "text" "a"|code 1"#,
    r#"require "bool" bool true|same"#,
    r#"require "set" texts ["a"]|same"#,
    r#"require "bool" bool false|code 3"#,
    r#"require "int" long 2147483647|code 3"#,
    r#"require "new" int 0|code 3"#,
    r#"set "bool" bool true|same"#,
];

fn has_outcome(alloc: Global, row: &str) -> Option<bool> {
    let (words, want) = row.split_once('|')?;
    makes(alloc, &edit_from(alloc, words)?, want)
}

#[test]
fn each_step_changes_the_settings_or_refuses(rt: HostRuntime) {
    for row in &OUTCOMES {
        assert_eq!(rt; has_outcome(rt.alloc(), row), Some(true), "{row}");
    }
}

const WEIGHTS: [(&str, u32); 11] = [
    (r#"set "k" texts ["a", "b"]"#, 23),
    (r#"set "" texts []"#, 20),
    (r#"set "k" bool true"#, 25),
    (r#"require "key" text "é""#, 21),
    (r#"remove "key""#, 19),
    ("clear", 16),
    (r#"addint "k" 1"#, 25),
    (r#"addlong "k" 1"#, 25),
    (r#"toggle "k""#, 17),
    (r#"insert "k" "xyz""#, 20),
    (r#"erase "k" "xyz""#, 20),
];

fn weight_of(alloc: Global, words: &str) -> Option<u32> {
    Some(edit_from(alloc, words)?.weight())
}

#[test]
fn each_step_has_its_weight(rt: HostRuntime) {
    for (words, weight) in &WEIGHTS {
        assert_eq!(rt; weight_of(rt.alloc(), words), Some(*weight), "{words}");
    }
}

const IN_ORDER: &str = r#"many clear ; addint "int" 1 ; addint "int" 2"#;

const REFUSED: &str = r#"many toggle "new" ; addint "int" 1 ; toggle "int""#;

fn goes_in_order(alloc: Global, edit: &Edit) -> Option<bool> {
    let is_whole = edit.weight() == 70 && edit.steps().len() == 3;
    Some(is_whole && makes(alloc, edit, "only int 3")?)
}

fn both_go_in_order(alloc: Global) -> Option<bool> {
    let edit = edit_from(alloc, IN_ORDER)?;
    Some(goes_in_order(alloc, &edit)? && goes_in_order(alloc, &edit.copy(alloc).ok()?)?)
}

fn first_refusal_counts(alloc: Global) -> Option<bool> {
    makes(alloc, &edit_from(alloc, REFUSED)?, "code 2")
}

#[test]
fn steps_go_in_order_and_the_first_refusal_counts(rt: HostRuntime) {
    assert_eq!(rt; both_go_in_order(rt.alloc()), Some(true));
    assert_eq!(rt; first_refusal_counts(rt.alloc()), Some(true));
}

fn clears(alloc: Global, count: u64) -> Result<Vec<EditStep>, AllocError> {
    let mut steps = Vec::new(alloc);
    for _ in 0..count {
        steps.push(EditStep::Clear)?;
    }
    Ok(steps)
}

/// Whether so many steps are an edit of so many, where what is refused is told its count.
fn is_edit_of(alloc: Global, count: u64) -> Option<bool> {
    match Edit::new(clears(alloc, count).ok()?) {
        Ok(edit) => Some(edit.steps().len() as u64 == count),
        Err(error) if error == (EditError::Count { count }) => Some(false),
        Err(_) => None,
    }
}

#[test]
fn an_edit_has_1_to_16_steps(rt: HostRuntime) {
    for (count, is_edit) in [(0, false), (1, true), (16, true), (17, false)] {
        assert_eq!(rt; is_edit_of(rt.alloc(), count), Some(is_edit), "{count}");
    }
}

fn one_step(alloc: Global, step: EditStep) -> Option<Vec<EditStep>> {
    vec![in alloc; step].ok()
}

/// A step that sets the empty key to a text of so many bytes.
fn long_set(alloc: Global, len: usize) -> Option<EditStep> {
    let value = PrefValue::Text(PrefText::new("t".repeat(alloc, len).ok()?));
    let key = key_of(alloc, "")?;
    Some(EditStep::Set { key, value })
}

/// The weight of an edit with such a step, or why it is none.
fn weight_of_long(alloc: Global, len: usize) -> Option<Result<u32, EditError>> {
    match Edit::new(one_step(alloc, long_set(alloc, len)?)?) {
        Ok(edit) => Some(Ok(edit.weight())),
        Err(error) => Some(Err(error)),
    }
}

#[test]
fn an_edit_weighs_at_most_65_536(rt: HostRuntime) {
    let refused = EditError::EditTooLong { weight: 65_537 };
    assert_eq!(rt; weight_of_long(rt.alloc(), 65_520), Some(Ok(65_536)));
    assert_eq!(rt; weight_of_long(rt.alloc(), 65_521), Some(Err(refused)));
}

fn is_told(alloc: Global, error: EditError, told: &str) -> Option<bool> {
    Some(format!(in alloc; "{error}").ok()?.as_str() == told)
}

#[test]
fn refusals_have_their_codes_and_texts(rt: HostRuntime) {
    let too_long = EditError::EditTooLong { weight: 65_537 };
    let count = EditError::Count { count: 17 };
    assert_eq!(rt; (too_long.code(), count.code()), (4, 5));
    let told = "an edit of weight 65537 is too long";
    assert_eq!(rt; is_told(rt.alloc(), too_long, told), Some(true));
    let told = "an edit has 1 to 16 steps, not 17";
    assert_eq!(rt; is_told(rt.alloc(), count, told), Some(true));
}

fn is_shared_by_threads<T: Send + Sync>() {}

#[test]
fn edits_cross_threads() {
    is_shared_by_threads::<(Edit, EditStep)>();
}
