ghost use Rattle.std.specs.Prelude.{◌+◌, ◌<◌, ◌^◌, length, IfOk};
ghost use Rattle.wire_codec.specs.Fields.{field_seen};
ghost use Rattle.prefs_proto.specs.Found.{SetRead, TextGiven, unfit_place};

use crate::nested::bytes_in;
use crate::read_text::add_text;
use crate::stop::Stop;
use crate::unfit::{UnfitAt, first_of};
use prefs_model::{Entries, PrefText};
use std::alloc::{AllocError, Global};
use wire_codec::{Field, WireReader};

/// Adds the texts of a message `StringSet`, whose first byte has the place, or answers the least place of
/// one that is not UTF-8.
pub(crate) fn read_set(
    alloc: Global,
    bytes: &[u8],
    place: u64,
    texts: &mut Entries<PrefText>,
) -> Result<Result<(), UnfitAt>, Stop>
    requires { place + length bytes.now < 2 ^ 64 }
    ensures { SetRead place bytes.now texts.old texts.new result }
{
    let mut reader = WireReader::new(bytes, place);
    let mut read = Ok(());
    loop {
        match reader.next_field() {
            Ok(Some(field)) => {
                let new = add_field(alloc, &field, texts)?;
                read = first_of(read, new);
            }
            Ok(None) => return Ok(read),
            Err(e) => return Err(Stop::Wire(e)),
        }
    }
}

fn add_field(
    alloc: Global,
    field: &Field<'_>,
    texts: &mut Entries<PrefText>,
) -> Result<Result<(), UnfitAt>, AllocError>
    ensures { IfOk result (λ read. TextGiven (field_seen field.now) texts.old texts.new (unfit_place read)) }
{
    match bytes_in(field, 1) {
        Some(text) => add_text(alloc, text, field.payload_place(), texts),
        None => Ok(Ok(())),
    }
}
