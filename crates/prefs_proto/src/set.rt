ghost use Rattle.std.specs.Prelude.{◌≡◌, ◌++◌, OnOk};
ghost use Rattle.prefs_proto.specs.FieldText.{count_of};
ghost use Rattle.prefs_proto.specs.ValueText.{set_text};

use crate::field::{field_len, put_field};
use crate::tag;
use prefs_model::PrefText;
use std::alloc::AllocError;

/// How many bytes the texts have as a message `StringSet`, at most 2^64 - 1.
#[tactic(auto, unfolding(crate::specs::ValueText::set_text))]
pub fn texts_len(texts: &[PrefText]) -> u64
    ensures { result ≡ count_of (set_text texts.now) }
{
    let mut len = 0u64;
    for text in texts {
        len = len.saturating_add(field_len(text.as_str().len() as u64));
    }
    len
}

/// Writes the texts at the end, as a message `StringSet`.
#[tactic(auto, unfolding(crate::specs::ValueText::set_text))]
pub fn put_texts(out: &mut Vec<u8>, texts: &[PrefText]) -> Result<(), AllocError>
    ensures { OnOk result (out.new.items ≡ out.old.items ++ set_text texts.now) }
{
    for text in texts {
        put_field(out, tag::MEMBER, text.as_str().as_bytes())?;
    }
    Ok(())
}
