ghost use Rattle.std.specs.Prelude.{◌≡◌, ◌++◌, string_bytes, OnOk};
ghost use Rattle.byte_io.specs.Seen.{sink_seen};
ghost use Rattle.folder_disk.specs.Seen.{folder_seen};
ghost use Rattle.prefs_text.specs.MapText.{pair_text};
ghost use Rattle.command_words.specs.declared.command.Command.TheVariants.{Show};
ghost use Rattle.prefs_tool.specs.Ending.{Ends};
ghost use Rattle.prefs_tool.specs.Outcome.{shown};
ghost use Rattle.prefs_tool.specs.Status.{line};
ghost use Rattle.prefs_tool.specs.Writing.{WritesText};

use crate::read::read_map;
use crate::tool_error::ToolError;
use crate::write::write;
use byte_io::Sink;
use folder_disk::Folder;
use prefs_model::PrefPair;
use prefs_text::push_pair;
use std::alloc::{AllocError, Global};

/// From how many bytes on a piece is written.
const PIECE_LEN: usize = 4096;

/// Prints the settings, a line for each key.
pub(crate) fn show<K: Sink, F: Folder>(
    alloc: Global,
    sink: &mut K,
    folder: &mut F,
) -> Result<(), ToolError>
    ensures { Ends Show (folder_seen F.Folder folder.old) (sink_seen K.Sink sink.old) result (folder_seen F.Folder folder.new) (sink_seen K.Sink sink.new) }
{
    let map = read_map(alloc, folder)?;
    write_pairs(alloc, sink, map.pairs())
}

/// Writes the lines of the pairs, many at once.
fn write_pairs<K: Sink>(alloc: Global, sink: &mut K, pairs: &[PrefPair]) -> Result<(), ToolError>
    ensures { WritesText (shown pairs.now) (sink_seen K.Sink sink.old) result (sink_seen K.Sink sink.new) }
{
    let mut piece = String::new(alloc);
    for pair in pairs {
        push_line(&mut piece, pair)?;
        if piece.len() >= PIECE_LEN {
            write(sink, piece.as_str().as_bytes())?;
            piece.clear();
        }
    }
    write(sink, piece.as_str().as_bytes())
}

fn push_line(piece: &mut String, pair: &PrefPair) -> Result<(), AllocError>
    ensures { OnOk result (string_bytes piece.new ≡ string_bytes piece.old ++ line (pair_text pair.now)) }
{
    push_pair(piece, pair)?;
    piece.push('\n')
}
