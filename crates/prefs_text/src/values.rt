ghost use Rattle.std.specs.Prelude.{◌≡◌, ◌++◌, string_bytes, OnOk, IfOk};
ghost use Rattle.prefs_text.specs.ValueText.{value_text, plain_text};
ghost use Rattle.hex.specs.Hex.{encode_lower};
ghost use Rattle.prefs_text.specs.ValueKind.{kind_of};

use crate::ValueKind;
use crate::lists::push_list;
use crate::quoted::push_quoted;
use itoa::Buffer;
use prefs_model::{PrefText, PrefValue};
use std::alloc::{AllocError, Global};

/// The text of the value: its kind, a space, and what it is.
pub fn value_text(alloc: Global, value: &PrefValue) -> Result<PrefText, AllocError>
    ensures { IfOk result (λ text. text ≡ value_text value.now) }
{
    let mut text = String::new(alloc);
    push_value(&mut text, value)?;
    Ok(PrefText::new(text))
}

/// Appends the text of the value.
pub fn push_value(out: &mut String, value: &PrefValue) -> Result<(), AllocError>
    ensures { OnOk result (string_bytes out.new ≡ string_bytes out.old ++ value_text value.now) }
{
    out.push_str(kind_of(value).name())?;
    out.push_str(" ")?;
    push_plain(out, value)
}

fn kind_of(value: &PrefValue) -> ValueKind
    ensures { result ≡ kind_of value.now }
{
    match value {
        PrefValue::Bool(_) => ValueKind::Bool,
        PrefValue::Int(_) => ValueKind::Int,
        PrefValue::Long(_) => ValueKind::Long,
        PrefValue::Float(_) => ValueKind::Float,
        PrefValue::Double(_) => ValueKind::Double,
        PrefValue::Text(_) => ValueKind::Text,
        PrefValue::Texts(_) => ValueKind::Texts,
    }
}

// Appends what stands behind the kind.
fn push_plain(out: &mut String, value: &PrefValue) -> Result<(), AllocError>
    ensures { OnOk result (string_bytes out.new ≡ string_bytes out.old ++ plain_text value.now) }
{
    match value {
        PrefValue::Bool(b) => out.push_str(if *b { "true" } else { "false" }),
        PrefValue::Int(number) => out.push_str(Buffer::new().format(*number)),
        PrefValue::Long(number) => out.push_str(Buffer::new().format(*number)),
        PrefValue::Float(bits) => push_hex(out, &bits.to_be_bytes()),
        PrefValue::Double(bits) => push_hex(out, &bits.to_be_bytes()),
        PrefValue::Text(text) => push_quoted(out, text.as_str()),
        PrefValue::Texts(texts) => push_list(out, texts.texts()),
    }
}

// Appends the bytes in lower-case hexadecimal.
fn push_hex(out: &mut String, bytes: &[u8]) -> Result<(), AllocError>
    ensures { OnOk result (string_bytes out.new ≡ string_bytes out.old ++ encode_lower bytes.now) }
{
    let digits = hex::encode(*out.allocator(), bytes)?;
    out.push_str(digits.as_str())
}
