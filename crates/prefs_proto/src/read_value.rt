ghost use Rattle.std.specs.Prelude.{◌≡◌, ◌+◌, ◌<◌, ◌^◌, length};
ghost use Rattle.wire_codec.specs.Fields.{field_seen};
ghost use Rattle.wire_codec.specs.Payload.{payload_seen, varint};
ghost use Rattle.wire_codec.specs.Reader.{payload_length};
ghost use Rattle.prefs_proto.specs.Layout.{scalar_of};
ghost use Rattle.prefs_proto.specs.Found.{ValueRead, MemberRead};

use crate::draft::{Draft, add_set};
use crate::nested::bytes_in;
use crate::read_text::read_text;
use crate::stop::Stop;
use crate::unfit::{UnfitAt, first_of};
use prefs_model::PrefValue;
use std::alloc::Global;
use wire_codec::{Field, Payload, WireReader};

/// Adds the members of a message `Value`, whose first byte has the place, or answers the least place of a
/// text that is not UTF-8.
pub(crate) fn read_value(
    alloc: Global,
    bytes: &[u8],
    place: u64,
    draft: &mut Draft,
) -> Result<Result<(), UnfitAt>, Stop>
    requires { place + length bytes.now < 2 ^ 64 }
    ensures { ValueRead place bytes.now draft.old draft.new result }
{
    let mut reader = WireReader::new(bytes, place);
    let mut read = Ok(());
    loop {
        match reader.next_field() {
            Ok(Some(field)) => {
                let new = add_member(alloc, &field, draft)?;
                read = first_of(read, new);
            }
            Ok(None) => return Ok(read),
            Err(e) => return Err(Stop::Wire(e)),
        }
    }
}

/// Adds the member that a field is, if it is one.
fn add_member(
    alloc: Global,
    field: &Field<'_>,
    draft: &mut Draft,
) -> Result<Result<(), UnfitAt>, Stop>
    requires { field.now.payload_place + payload_length (payload_seen field.now.payload) < 2 ^ 64 }
    ensures { MemberRead (field_seen field.now) draft.old draft.new result }
{
    let place = field.payload_place();
    if let Some(set) = bytes_in(field, 6) {
        return add_set(alloc, set, place, draft);
    }
    if let Some(text) = bytes_in(field, 5) {
        return match read_text(alloc, text, place)? {
            Ok(text) => {
                *draft = Draft::One(PrefValue::Text(text));
                Ok(Ok(()))
            }
            Err(at) => Ok(Err(at)),
        };
    }
    if let Some(value) = scalar_in(field.number, field.payload) {
        *draft = Draft::One(value);
    }
    Ok(Ok(()))
}

/// A member that is no text and no set. Of an `int32` the low 32 bits count.
fn scalar_in(number: u32, payload: Payload<'_>) -> Option<PrefValue>
    ensures { result ≡ scalar_of number (payload_seen payload.entry) }
{
    match payload {
        Payload::Varint(n) => varint_in(number, n),
        Payload::Eight(bits) => {
            if number == 7 {
                Some(PrefValue::Double(bits))
            } else {
                None
            }
        }
        Payload::Bytes(_) | Payload::Group => None,
        Payload::Four(bits) => {
            if number == 2 {
                Some(PrefValue::Float(bits))
            } else {
                None
            }
        }
    }
}

fn varint_in(number: u32, n: u64) -> Option<PrefValue>
    ensures { result ≡ scalar_of number (varint n) }
{
    if number == 1 {
        Some(PrefValue::Bool(n != 0))
    } else if number == 3 {
        let low = (n % (1 << 32)) as u32;
        Some(PrefValue::Int(low.cast_signed()))
    } else if number == 4 {
        Some(PrefValue::Long(n.cast_signed()))
    } else {
        None
    }
}
