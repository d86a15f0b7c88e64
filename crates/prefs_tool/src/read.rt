ghost use Rattle.std.specs.Prelude.{IsTrue};
ghost use Rattle.store_traits.specs.Faults.{Counts};
ghost use Rattle.folder_disk.specs.Seen.{folder_seen};
ghost use Rattle.prefs_tool.specs.Folder.{OnlyReads, is_storage};
ghost use Rattle.prefs_tool.specs.Reading.{ReadsMap, ReadsText};

use crate::tool_error::ToolError;
use folder_disk::{Folder, MainRead, ReadMainError};
use prefs_model::PrefMap;
use prefs_proto::PrefsCodec;
use std::alloc::Global;
use store_traits::{Codec, Decoded};

/// How many bytes a file may have.
pub(crate) const FILE_LIMIT: u64 = 1048576;

/// The map that main reads as; an absent main reads as the empty map.
pub(crate) fn read_map<F: Folder>(alloc: Global, folder: &mut F) -> Result<PrefMap, ToolError>
    ensures read { ReadsMap F.told (F.contents folder.old).main result }
    ensures only { IsTrue F.told → OnlyReads (is_storage result) (folder_seen F.Folder folder.old) (folder_seen F.Folder folder.new) }
    ensures faults { Counts (is_storage result) (F.tally folder.old).count (F.tally folder.new).count }
{
    match folder.read_main(alloc, FILE_LIMIT) {
        Ok(MainRead::Absent) => Ok(PrefMap::new(alloc)),
        Ok(MainRead::Bytes(bytes)) => map_of(alloc, bytes.as_slice()),
        Err(ReadMainError::Failed) => Err(ToolError::Storage),
        Err(ReadMainError::TooLong { len }) => Err(ToolError::TooLong { len }),
        Err(ReadMainError::NoMemory) => Err(ToolError::NoMemory),
    }
}

/// The map with this text.
fn map_of(alloc: Global, bytes: &[u8]) -> Result<PrefMap, ToolError>
    ensures { ReadsText bytes.now result }
{
    match PrefsCodec.decode(alloc, bytes)? {
        Decoded::Good(map) => Ok(map),
        Decoded::Corrupt => Err(ToolError::Corrupt),
    }
}
