ghost use Rattle.std.specs.Prelude.{◌≡◌, ◌++◌, OnOk};
ghost use Rattle.prefs_proto.specs.FieldText.{count_of};
ghost use Rattle.prefs_proto.specs.Encoded.{entry_text, pair_text};

use crate::field::{field_len, put_field, put_head};
use crate::tag;
use crate::value::{put_value, value_len};
use prefs_model::PrefPair;
use std::alloc::AllocError;

/// How many bytes an entry has behind its tag and its length, at most 2^64 - 1.
#[tactic(auto, unfolding(crate::specs::Encoded::entry_text))]
fn entry_len(pair: &PrefPair) -> u64
    ensures { result ≡ count_of (entry_text pair.now) }
{
    let key = pair.key.as_str();
    field_len(key.len() as u64).saturating_add(field_len(value_len(&pair.value)))
}

/// How many bytes an entry has, at most 2^64 - 1.
#[tactic(auto, unfolding(crate::specs::Encoded::pair_text))]
pub fn pair_len(pair: &PrefPair) -> u64
    ensures { result ≡ count_of (pair_text pair.now) }
{
    field_len(entry_len(pair))
}

/// Writes an entry at the end.
#[tactic(auto, unfolding(crate::specs::Encoded::pair_text, crate::specs::Encoded::entry_text, crate::specs::FieldText::field))]
pub fn put_pair(out: &mut Vec<u8>, pair: &PrefPair) -> Result<(), AllocError>
    ensures { OnOk result (out.new.items ≡ out.old.items ++ pair_text pair.now) }
{
    put_head(out, tag::PREFERENCES, entry_len(pair))?;
    put_field(out, tag::KEY, pair.key.as_str().as_bytes())?;
    put_head(out, tag::VALUE, value_len(&pair.value))?;
    put_value(out, &pair.value)
}
