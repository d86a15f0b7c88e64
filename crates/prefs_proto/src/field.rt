ghost use Rattle.std.specs.Prelude.{◌≡◌, ◌+◌, ◌-◌, ◌<◌, ◌^◌, ◌∷◌, ◌++◌, length, min, OnOk};
ghost use Rattle.wire_codec.specs.Text.{varint_text};
ghost use Rattle.prefs_proto.specs.FieldText.{field};

use std::alloc::AllocError;
use wire_codec::{put_varint, varint_len};

/// How many bytes a field takes whose content has `len` bytes: its tag, the length and the content.
/// At most 2^64 - 1, which stands for all that is more.
pub fn field_len(len: u64) -> u64
    ensures { result ≡ min (1 + length (varint_text len) + len) (2 ^ 64 - 1) }
{
    len.saturating_add(1 + varint_len(len))
}

/// Writes what stands before a content of `len` bytes: the tag and the length. No memory holds 2^64 - 1
/// bytes, and so many are refused.
pub fn put_head(out: &mut Vec<u8>, tag: u8, len: u64) -> Result<(), AllocError>
    ensures head { OnOk result (out.new.items ≡ out.old.items ++ tag ∷ varint_text len) }
    ensures fits { OnOk result (len < 2 ^ 64 - 1) }
{
    if len == u64::MAX {
        return Err(AllocError);
    }
    out.push(tag)?;
    put_varint(out, len)
}

/// Writes a field at the end.
#[tactic(auto, unfolding(crate::specs::FieldText::field))]
pub fn put_field(out: &mut Vec<u8>, tag: u8, content: &[u8]) -> Result<(), AllocError>
    ensures { OnOk result (out.new.items ≡ out.old.items ++ field tag content.now) }
{
    put_head(out, tag, content.len() as u64)?;
    out.extend_from_slice(content)
}
