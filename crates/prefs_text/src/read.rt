ghost use Rattle.std.specs.Prelude.{◌≡◌, ◌≢◌, ℕ, List, IfOk, IfErr};
ghost use Rattle.prefs_model.specs.declared.pref_value.PrefValue.{PrefValue};
ghost use Rattle.prefs_text.specs.Content.{IsContentOf, IsBadOrNoMemory};
ghost use Rattle.prefs_text.specs.Reading.{IsValueText, IsRefusalOf};
ghost use Rattle.prefs_text.specs.ValueKind.{IsScalar};

use crate::json_texts::{listed_texts, quoted_text};
use crate::scalars::plain_value;
use crate::{ValueKind, ValueTextError};
use prefs_model::PrefValue;
use std::alloc::Global;

/// The value that the text is.
pub fn parse_value(alloc: Global, text: &str) -> Result<PrefValue, ValueTextError>
    ensures ok { IfOk result (IsValueText text.now) }
    ensures err { IfErr result (IsRefusalOf text.now) }
{
    let Some((word, content)) = text.split_once(' ') else {
        return Err(match ValueKind::from_name(text) {
            Some(_) => ValueTextError::BadText,
            None => ValueTextError::UnknownKind,
        });
    };
    match ValueKind::from_name(word) {
        Some(kind) => content_value(alloc, kind, content),
        None => Err(ValueTextError::UnknownKind),
    }
}

/// The value of the kind that this text is, which stands behind the kind's name. It never answers `UnknownKind`.
pub fn content_value(
    alloc: Global,
    kind: ValueKind,
    content: &str,
) -> Result<PrefValue, ValueTextError>
    ensures ok { IfOk result (IsContentOf kind content.now) }
    ensures err { IfErr result (IsBadOrNoMemory ((value : PrefValue) → ¬ IsContentOf kind content.now value) (¬ IsScalar kind)) }
{
    match kind {
        ValueKind::Text => Ok(PrefValue::Text(quoted_text(alloc, content)?)),
        ValueKind::Texts => Ok(PrefValue::Texts(listed_texts(alloc, content)?)),
        _ => plain_value(kind, content).ok_or(ValueTextError::BadText),
    }
}
