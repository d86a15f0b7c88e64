ghost use Rattle.std.specs.Prelude.{IsTrue};
ghost use Rattle.store_traits.specs.Faults.{Counts};
ghost use Rattle.byte_io.specs.Seen.{sink_seen};
ghost use Rattle.folder_disk.specs.Seen.{folder_seen};
ghost use Rattle.command_words.specs.declared.command.Command.TheVariants.{Get};
ghost use Rattle.prefs_tool.specs.Ending.{Ends, FindsLine};
ghost use Rattle.prefs_tool.specs.Folder.{OnlyReads, is_storage};

use crate::read::read_map;
use crate::tool_error::ToolError;
use crate::write::write;
use byte_io::Sink;
use folder_disk::Folder;
use prefs_model::PrefKey;
use prefs_text::value_text;
use std::alloc::Global;

/// Prints the value of the key.
pub(crate) fn get<K: Sink, F: Folder>(
    alloc: Global,
    sink: &mut K,
    folder: &mut F,
    key: &PrefKey,
) -> Result<(), ToolError>
    ensures { Ends (Get key.now) (folder_seen F.Folder folder.old) (sink_seen K.Sink sink.old) result (folder_seen F.Folder folder.new) (sink_seen K.Sink sink.new) }
{
    let line = line_at(alloc, folder, key)?;
    write(sink, line.as_str().as_bytes())
}

/// The line that tells the value of the key.
fn line_at<F: Folder>(alloc: Global, folder: &mut F, key: &PrefKey) -> Result<String, ToolError>
    ensures found { FindsLine F.told key.now (F.contents folder.old).main result }
    ensures only { IsTrue F.told → OnlyReads (is_storage result) (folder_seen F.Folder folder.old) (folder_seen F.Folder folder.new) }
    ensures faults { Counts (is_storage result) (F.tally folder.old).count (F.tally folder.new).count }
{
    let map = read_map(alloc, folder)?;
    let Some(value) = map.get(key) else {
        return Err(ToolError::NoKey);
    };
    let mut line = value_text(alloc, value)?.into_string();
    line.push('\n')?;
    Ok(line)
}
