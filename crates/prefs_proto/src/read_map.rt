ghost use Rattle.std.specs.Prelude.{◌+◌, ◌<◌, ◌^◌, length};
ghost use Rattle.wire_codec.specs.Fields.{field_seen};
ghost use Rattle.wire_codec.specs.Payload.{payload_seen};
ghost use Rattle.wire_codec.specs.Reader.{payload_length};
ghost use Rattle.prefs_proto.specs.Found.{MapRead, EntryAdded};

use crate::draft::into_value;
use crate::nested::bytes_in;
use crate::read_entry::{EntryFound, read_entry};
use crate::stop::Stop;
use crate::unfit::{UnfitAt, first_of};
use prefs_model::{Entries, PrefEntry, PrefKey};
use std::alloc::Global;
use wire_codec::{Field, WireReader};

/// The entries of a file. Where a text is not UTF-8 or a key too long, what else is found means nothing.
#[derive(Drop)]
pub(crate) struct MapFound {
    pub(crate) entries: Entries<PrefEntry>,
    /// Whether all texts are UTF-8, or the least place of one that is not.
    pub(crate) texts: Result<(), UnfitAt>,
    /// Whether all keys are short enough, or the least place of an entry whose key is too long.
    pub(crate) keys: Result<(), UnfitAt>,
}

/// Reads the entries of a file.
pub(crate) fn read_map(alloc: Global, bytes: &[u8]) -> Result<MapFound, Stop>
    requires { length bytes.now < 2 ^ 64 }
    ensures { MapRead bytes.now result }
{
    let mut reader = WireReader::new(bytes, 0);
    let mut found = MapFound {
        entries: Entries::new(alloc),
        texts: Ok(()),
        keys: Ok(()),
    };
    loop {
        match reader.next_field() {
            Ok(Some(field)) => add_entry(alloc, &field, &mut found)?,
            Ok(None) => return Ok(found),
            Err(e) => return Err(Stop::Wire(e)),
        }
    }
}

/// Adds the entry that a field is, if it is one.
fn add_entry(alloc: Global, field: &Field<'_>, found: &mut MapFound) -> Result<(), Stop>
    requires { field.now.payload_place + payload_length (payload_seen field.now.payload) < 2 ^ 64 }
    ensures { EntryAdded (field_seen field.now) found.old found.new result }
{
    let Some(bytes) = bytes_in(field, 1) else {
        return Ok(());
    };
    let EntryFound { key, draft, texts } = read_entry(alloc, bytes, field.payload_place())?;
    found.texts = first_of(found.texts, texts);
    match PrefKey::new(key.into_string()) {
        Ok(key) => {
            let value = into_value(draft)?;
            found.entries.push(PrefEntry { key, value })?;
        }
        Err(_) => found.keys = first_of(found.keys, Err(UnfitAt(field.place))),
    }
    Ok(())
}
