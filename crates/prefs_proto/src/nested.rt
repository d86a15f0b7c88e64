ghost use Rattle.std.specs.Prelude.{◌≡◌, ◌==◌, MatchOption, None, Some};
ghost use Rattle.wire_codec.specs.Fields.{field_seen};
ghost use Rattle.prefs_proto.specs.Message.{bytes_of};

use wire_codec::{Field, Payload};

/// The bytes of a field with this number and wire type 2.
#[inline]
pub(crate) fn bytes_in<'a>(field: &Field<'a>, number: u32) -> Option<&'a [u8]>
    ensures { MatchOption result (bytes_of number (field_seen field.now) ≡ None) (λ bytes. bytes_of number (field_seen field.now) ≡ Some bytes.now) }
{
    match field.payload {
        Payload::Bytes(bytes) => {
            if field.number == number {
                Some(bytes)
            } else {
                None
            }
        }
        _ => None,
    }
}
