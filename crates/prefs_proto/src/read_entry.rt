ghost use Rattle.std.specs.Prelude.{◌+◌, ◌<◌, ◌^◌, length};
ghost use Rattle.wire_codec.specs.Fields.{field_seen};
ghost use Rattle.wire_codec.specs.Payload.{payload_seen};
ghost use Rattle.wire_codec.specs.Reader.{payload_length};
ghost use Rattle.prefs_proto.specs.Found.{EntryRead, PartRead};

use crate::draft::Draft;
use crate::nested::bytes_in;
use crate::read_text::read_text;
use crate::read_value::read_value;
use crate::stop::Stop;
use crate::unfit::{UnfitAt, first_of};
use prefs_model::PrefText;
use std::alloc::Global;
use wire_codec::{Field, WireReader};

/// An entry. Where a text is not UTF-8, what else is found of it means nothing.
#[derive(Drop)]
pub(crate) struct EntryFound {
    pub(crate) key: PrefText,
    pub(crate) draft: Draft,
    /// Whether its texts are UTF-8, or the least place of one that is not.
    pub(crate) texts: Result<(), UnfitAt>,
}

/// Reads an entry, whose first byte has the place.
pub(crate) fn read_entry(alloc: Global, bytes: &[u8], place: u64) -> Result<EntryFound, Stop>
    requires { place + length bytes.now < 2 ^ 64 }
    ensures { EntryRead place bytes.now result }
{
    let mut reader = WireReader::new(bytes, place);
    let mut key = PrefText::new(String::new(alloc));
    let mut draft = Draft::Unset;
    let mut texts = Ok(());
    loop {
        match reader.next_field() {
            Ok(Some(field)) => {
                let new = add_part(alloc, &field, &mut key, &mut draft)?;
                texts = first_of(texts, new);
            }
            Ok(None) => return Ok(EntryFound { key, draft, texts }),
            Err(e) => return Err(Stop::Wire(e)),
        }
    }
}

/// Takes the key or the part of the value that a field is, if it is one, or answers the least place of a
/// text that is not UTF-8.
fn add_part(
    alloc: Global,
    field: &Field<'_>,
    key: &mut PrefText,
    draft: &mut Draft,
) -> Result<Result<(), UnfitAt>, Stop>
    requires { field.now.payload_place + payload_length (payload_seen field.now.payload) < 2 ^ 64 }
    ensures { PartRead (field_seen field.now) key.old key.new draft.old draft.new result }
{
    let place = field.payload_place();
    if let Some(value) = bytes_in(field, 2) {
        return read_value(alloc, value, place, draft);
    }
    if let Some(text) = bytes_in(field, 1) {
        return match read_text(alloc, text, place)? {
            Ok(text) => {
                *key = text;
                Ok(Ok(()))
            }
            Err(at) => Ok(Err(at)),
        };
    }
    Ok(Ok(()))
}
