ghost use Rattle.std.specs.Prelude.{◌≡◌, ◌∷◌, ◌++◌, OnOk};
ghost use Rattle.std.specs.Int.{w64, cast_unsigned};
ghost use Rattle.prefs_proto.specs.FieldText.{count_of};
ghost use Rattle.wire_codec.specs.Text.{varint_text};
ghost use Rattle.prefs_proto.specs.ValueText.{value_text};

use crate::field::{field_len, put_field, put_head};
use crate::set::{put_texts, texts_len};
use crate::tag;
use prefs_model::PrefValue;
use std::alloc::AllocError;
use wire_codec::{put_varint, varint_len};

/// How many bytes the text of a value has, at most 2^64 - 1.
#[tactic(auto, unfolding(crate::specs::ValueText::value_text))]
pub fn value_len(value: &PrefValue) -> u64
    ensures { result ≡ count_of (value_text value.now) }
{
    match value {
        PrefValue::Bool(_) => 2,
        PrefValue::Int(number) => 1 + varint_len(i64::from(*number).cast_unsigned()),
        PrefValue::Long(number) => 1 + varint_len(number.cast_unsigned()),
        PrefValue::Float(_) => 5,
        PrefValue::Double(_) => 9,
        PrefValue::Text(text) => field_len(text.as_str().len() as u64),
        PrefValue::Texts(texts) => field_len(texts_len(texts.texts())),
    }
}

/// Writes the text of a value at the end.
#[tactic(auto, unfolding(crate::specs::ValueText::value_text))]
pub fn put_value(out: &mut Vec<u8>, value: &PrefValue) -> Result<(), AllocError>
    ensures { OnOk result (out.new.items ≡ out.old.items ++ value_text value.now) }
{
    match value {
        PrefValue::Bool(b) => out.extend_from_slice(&[tag::BOOLEAN, u8::from(*b)]),
        PrefValue::Int(number) => put_number(out, tag::INTEGER, i64::from(*number)),
        PrefValue::Long(number) => put_number(out, tag::LONG, *number),
        PrefValue::Float(bits) => {
            out.push(tag::FLOAT)?;
            out.extend_from_slice(&bits.to_le_bytes())
        }
        PrefValue::Double(bits) => {
            out.push(tag::DOUBLE)?;
            out.extend_from_slice(&bits.to_le_bytes())
        }
        PrefValue::Text(text) => put_field(out, tag::TEXT, text.as_str().as_bytes()),
        PrefValue::Texts(texts) => {
            put_head(out, tag::TEXTS, texts_len(texts.texts()))?;
            put_texts(out, texts.texts())
        }
    }
}

/// Writes a tag and the varint of the 64 bits in two's complement.
fn put_number(out: &mut Vec<u8>, tag: u8, number: i64) -> Result<(), AllocError>
    ensures { OnOk result (out.new.items ≡ out.old.items ++ tag ∷ varint_text (cast_unsigned w64 number)) }
{
    out.push(tag)?;
    put_varint(out, number.cast_unsigned())
}
