ghost use Rattle.std.specs.Prelude.{◌≡◌, ◌≢◌, ◌<◌, ◌*◌, ◌^◌, ℕ, ℤ, List, length, Bool, IfSome, IfNone, FitsSigned};
ghost use Rattle.std.specs.Int.{w32, w64};
ghost use Rattle.std.specs.Bool.{OnTrue, OnFalse};
ghost use Rattle.std.specs.Fmt.{signed_decimal};
ghost use Rattle.hex.specs.Hex.{encode_lower, IsBytes};
ghost use Rattle.prefs_model.specs.declared.pref_value.PrefValue.{PrefValue};
ghost use Rattle.prefs_text.specs.PlainWord.{IsPlainWord};
ghost use Rattle.prefs_text.specs.ValueText.{truth_text, float_text, double_text};

use crate::ValueKind;
use itoa::Buffer;
use prefs_model::PrefValue;

/// The value of the kind that prints as this bare word. A `Text` or a `Texts` is never one.
pub fn plain_value(kind: ValueKind, word: &str) -> Option<PrefValue>
    ensures some { IfSome result (λ value. IsPlainWord kind word.now value) }
    ensures none { IfNone result ((value : PrefValue) → ¬ IsPlainWord kind word.now value) }
{
    match kind {
        ValueKind::Bool => Some(PrefValue::Bool(truth_of(word)?)),
        ValueKind::Int => Some(PrefValue::Int(int_of(word)?)),
        ValueKind::Long => Some(PrefValue::Long(long_of(word)?)),
        ValueKind::Float => Some(PrefValue::Float(float_of(word)?)),
        ValueKind::Double => Some(PrefValue::Double(double_of(word)?)),
        ValueKind::Text | ValueKind::Texts => None,
    }
}

fn truth_of(word: &str) -> Option<bool>
    ensures some { IfSome result (λ b. word.now ≡ truth_text b) }
    ensures none { IfNone result ((b : Bool) → word.now ≢ truth_text b) }
{
    match word {
        "true" => Some(true),
        "false" => Some(false),
        _ => None,
    }
}

/// The number that prints as this word.
pub fn int_of(word: &str) -> Option<i32>
    ensures some { IfSome result (λ z. word.now ≡ signed_decimal z) }
    ensures none { IfNone result ((z : ℤ) → FitsSigned w32 z → word.now ≢ signed_decimal z) }
{
    i32::try_from(long_of(word)?).ok()
}

/// The number that prints as this word.
pub fn long_of(word: &str) -> Option<i64>
    ensures fits { IfSome result (FitsSigned w64) }
    ensures some { IfSome result (λ z. word.now ≡ signed_decimal z) }
    ensures none { IfNone result ((z : ℤ) → FitsSigned w64 z → word.now ≢ signed_decimal z) }
{
    // Parsing accepts more than is printed, as `+1`, `01` or `-0`.
    let Ok(number) = word.parse::<i64>() else {
        return None;
    };
    if Buffer::new().format(number) == word {
        Some(number)
    } else {
        None
    }
}

fn float_of(word: &str) -> Option<u32>
    ensures some { IfSome result (λ bits. word.now ≡ float_text bits) }
    ensures none { IfNone result ((bits : ℕ) → bits < 2 ^ 32 → word.now ≢ float_text bits) }
{
    let mut bytes = [0u8; 4];
    let mut digits = [0u8; 8];
    if decode_lower(word, &mut bytes, &mut digits) {
        Some(u32::from_be_bytes(bytes))
    } else {
        None
    }
}

fn double_of(word: &str) -> Option<u64>
    ensures some { IfSome result (λ bits. word.now ≡ double_text bits) }
    ensures none { IfNone result ((bits : ℕ) → bits < 2 ^ 64 → word.now ≢ double_text bits) }
{
    let mut bytes = [0u8; 8];
    let mut digits = [0u8; 16];
    if decode_lower(word, &mut bytes, &mut digits) {
        Some(u64::from_be_bytes(bytes))
    } else {
        None
    }
}

/// Fills the bytes from the word, and says whether the word is what is printed of them, in lower-case hexadecimal.
/// `digits` is room for what is printed: decoding alone accepts upper-case digits too.
pub fn decode_lower(word: &str, bytes: &mut [u8], digits: &mut [u8]) -> bool
    requires { length digits.old ≡ 2 * length bytes.old }
    ensures bytes { IsBytes bytes.new }
    ensures yes { OnTrue result (word.now ≡ encode_lower bytes.new) }
    ensures no { OnFalse result ((other : List ℕ) → length other ≡ length bytes.old → IsBytes other → word.now ≢ encode_lower other) }
{
    let Ok(()) = hex::decode_to_slice(word, bytes) else {
        return false;
    };
    let Ok(()) = hex::encode_to_slice(&*bytes, digits) else {
        return false;
    };
    &*digits == word.as_bytes()
}
