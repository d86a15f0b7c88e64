//! Base 128 varints, as they are written: the shortest ones.

ghost use Rattle.std.specs.Prelude.{◌≡◌, ◌≤◌, ◌++◌, length, OnOk, OnErr};
ghost use Rattle.wire_codec.specs.Text.{Extends, varint_text};

use std::alloc::AllocError;

/// How many bytes the varint of a number has, 1 to 10.
pub fn varint_len(number: u64) -> u64
    ensures len { result ≡ length (varint_text number) }
    ensures few { result ≤ 10 }
{
    let mut len = 1;
    let mut rest = number;
    while rest >= 128 {
        rest /= 128;
        len += 1;
    }
    len
}

/// Writes the varint of a number at the end. A refusal may have written a part of it.
pub fn put_varint(out: &mut Vec<u8>, number: u64) -> Result<(), AllocError>
    ensures ok { OnOk result (out.new.items ≡ out.old.items ++ varint_text number) }
    ensures err { OnErr result (Extends out.old.items out.new.items) }
{
    let mut rest = number;
    while rest >= 128 {
        out.push((rest % 128) as u8 + 128)?;
        rest /= 128;
    }
    out.push(rest as u8)?;
    Ok(())
}
