//! Quoted texts and lists of them, read.
ghost use Rattle.std.specs.Prelude.{◌≡◌, ◌≢◌, ◌<◌, ◌↔◌, ℕ, List, [], ◌∷◌, ⊤, map, All, IsTrue, IfOk, IfErr, Some, None};
ghost use Rattle.serde_json.specs.Data.{string};
ghost use Rattle.serde_json.specs.Read.{read};
ghost use Rattle.serde_json.specs.View.{view, items_view, items_of};
ghost use Rattle.prefs_text.specs.Content.{IsBetween, IsInLine, IsQuoted, IsListOf, IsSetList, IsBadOrNoMemory};

use crate::ValueTextError;
use prefs_model::{Entries, PrefText, TextSet};
use serde_json::Value;
use std::alloc::Global;

/// The text that a JSON string is, with nothing round it. It never answers `UnknownKind`.
pub fn quoted_text(alloc: Global, json: &str) -> Result<PrefText, ValueTextError>
    ensures ok { IfOk result (IsQuoted json.now) }
    ensures err { IfErr result (IsBadOrNoMemory ((text : List ℕ) → ¬ IsQuoted json.now text) ⊤) }
{
    if !is_between(json, '"', '"') {
        return Err(ValueTextError::BadText);
    }
    match read_json(alloc, json)? {
        Value::String(text) => Ok(PrefText::new(text)),
        _ => Err(ValueTextError::BadText),
    }
}

/// The set of the texts that a JSON array has.
pub(crate) fn listed_texts(alloc: Global, json: &str) -> Result<TextSet, ValueTextError>
    ensures ok { IfOk result (IsSetList json.now) }
    ensures err { IfErr result (IsBadOrNoMemory ((texts : List (List ℕ)) → ¬ IsListOf json.now texts) ⊤) }
{
    if !is_between(json, '[', ']') || !is_in_line(json) {
        return Err(ValueTextError::BadText);
    }
    match read_json(alloc, json)? {
        Value::Array(items) => Ok(TextSet::from_entries(strings_of(alloc, items)?)?),
        _ => Err(ValueTextError::BadText),
    }
}

fn read_json(alloc: Global, json: &str) -> Result<Value, ValueTextError>
    ensures ok { IfOk result (λ value. read json.now ≡ Some (view value)) }
    ensures err { IfErr result (IsBadOrNoMemory (read json.now ≡ None) ⊤) }
{
    match Value::from_str(alloc, json) {
        Ok(value) => Ok(value),
        Err(error) if error.is_memory() => Err(ValueTextError::NoMemory),
        Err(_) => Err(ValueTextError::BadText),
    }
}

// The texts, where each item is one.
fn strings_of(alloc: Global, items: Vec<Value>) -> Result<Entries<PrefText>, ValueTextError>
    ensures ok { IfOk result (λ texts. items_view items.items ≡ items_of (map string texts)) }
    ensures err { IfErr result (IsBadOrNoMemory ((texts : List (List ℕ)) → items_view items.items ≢ items_of (map string texts)) ⊤) }
{
    let mut texts = Entries::new(alloc);
    for item in items {
        match item {
            Value::String(text) => texts.push(PrefText::new(text))?,
            _ => return Err(ValueTextError::BadText),
        }
    }
    Ok(texts)
}

// Whether the text begins with the one character and, behind it, ends with the other.
fn is_between(text: &str, first: char, last: char) -> bool
    requires first { first < 128 }
    requires last { last < 128 }
    ensures { IsTrue result ↔ IsBetween (first ∷ []) (last ∷ []) text.now }
{
    match text.strip_prefix(first) {
        Some(rest) => rest.ends_with(last),
        None => false,
    }
}

fn is_in_line(text: &str) -> bool
    ensures { IsTrue result ↔ All IsInLine text.now }
{
    text.bytes()
        .all(|byte| byte != b'\t' && byte != b'\n' && byte != b'\r')
}
