//! Writing at the end of bytes. What finds no memory may have written a part.

ghost use Rattle.std.specs.Prelude.{◌≡◌, ◌≤◌, ◌<◌, ◌^◌, ◌++◌, OnOk, OnErr};
ghost use Rattle.wire_codec.specs.Payload.{payload_seen};
ghost use Rattle.wire_codec.specs.Text.{Extends, IsWritable, field_text};

use crate::payload::Payload;
use crate::varint::put_varint;
use std::alloc::AllocError;

/// Writes a field that is no group.
pub(crate) fn put_field(
    out: &mut Vec<u8>,
    number: u32,
    payload: Payload<'_>,
) -> Result<(), AllocError>
    requires number { number < 2 ^ 29 }
    requires payload { IsWritable (payload_seen payload) }
    ensures ok { OnOk result (out.new.items ≡ out.old.items ++ field_text number (payload_seen payload.entry)) }
    ensures err { OnErr result (Extends out.old.items out.new.items) }
{
    let key = u64::from(number) * 8;
    match payload {
        Payload::Varint(value) => {
            put_varint(out, key)?;
            put_varint(out, value)
        }
        Payload::Eight(value) => {
            put_varint(out, key + 1)?;
            put(out, &value.to_le_bytes())
        }
        Payload::Bytes(bytes) => {
            put_varint(out, key + 2)?;
            put_varint(out, bytes.len() as u64)?;
            put(out, bytes)
        }
        Payload::Group => unreachable!(),
        Payload::Four(value) => {
            put_varint(out, key + 5)?;
            put(out, &value.to_le_bytes())
        }
    }
}

fn put(out: &mut Vec<u8>, bytes: &[u8]) -> Result<(), AllocError>
    ensures ok { OnOk result (out.new.items ≡ out.old.items ++ bytes.now) }
    ensures err { OnErr result (Extends out.old.items out.new.items) }
{
    out.extend_from_slice(bytes)
}
