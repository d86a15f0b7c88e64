ghost use Rattle.std.specs.Prelude.{◌≡◌, ◌⊎◌, Err};
ghost use Rattle.byte_io.specs.Seen.{sink_seen, source_seen};
ghost use Rattle.command_words.specs.Command.{Asks, AsksNothing, texts};
ghost use Rattle.command_words.specs.declared.command.Command.{Command};
ghost use Rattle.command_words.specs.declared.command.Command.TheVariants.{Replay};
ghost use Rattle.folder_disk.specs.Seen.{folder_seen};
ghost use Rattle.prefs_tool.specs.Ending.{Ends};
ghost use Rattle.prefs_tool.specs.Outcome.{Outcome, ReadsNoScript, RefusesWords, Reports};
ghost use Rattle.prefs_tool.specs.Replaying.{EndsReplay, Replayed};
ghost use Rattle.prefs_tool.specs.Status.{line_of};

use crate::Status;
use crate::change::change;
use crate::get::get;
use crate::replay::print_run;
use crate::show::show;
use crate::tool_error::ToolError;
use crate::write::write_line;
use byte_io::{Sink, Source};
use command_words::{Command, asked};
use folder_disk::Folder;
use prefs_edit::EditStep;
use std::alloc::Global;

/// Does what the words ask for: `set`, `remove`, `get` or `show` on the settings in the folder, or `replay` of the
/// script that the source gives. What it prints goes to the sink, and so does the line that tells why it stopped. It
/// always returns.
pub fn run_tool<S: Source, K: Sink, F: Folder>(
    alloc: Global,
    words: &[String],
    source: &mut S,
    sink: &mut K,
    folder: &mut F,
) -> Status
    // Words that are no command are refused.
    ensures words { result ≡ Status.Words → AsksNothing (texts words.now) }
    ensures refused { AsksNothing (texts words.now) → RefusesWords result (sink_seen K.Sink sink.old) (sink_seen K.Sink sink.new) }
    // What the words ask for is done, or the status says why not: what is told, which calls of the folder
    // were made, what it holds then, and which counts of faults rose.
    ensures outcome { (command : Command) → Asks (texts words.now) command → ReadsNoScript command
        → Outcome command (folder_seen F.Folder folder.old) (sink_seen K.Sink sink.old) result (folder_seen F.Folder folder.new) (sink_seen K.Sink sink.new) }
    // The run of the script is told, or the status says why not, and what was read.
    ensures replay { Asks (texts words.now) Replay
        → Replayed (source_seen S.Source source.old) (sink_seen K.Sink sink.old) result (source_seen S.Source source.new) (sink_seen K.Sink sink.new) }
    // Only `replay` reads of the source, and neither it nor words that are no command touch the folder.
    ensures source { ¬ Asks (texts words.now) Replay → source.new ≡ source.old }
    ensures folder { AsksNothing (texts words.now) ⊎ Asks (texts words.now) Replay → folder.new ≡ folder.old }
{
    let Ok(asked) = asked(alloc, words) else {
        return Status::NoMemory;
    };
    let Some(command) = asked else {
        return tell(sink, ToolError::Words);
    };
    let Err(error) = run_command(alloc, source, sink, folder, command) else {
        return Status::Done;
    };
    if error.is_write_fault() {
        return Status::WriteFault;
    }
    tell(sink, error)
}

fn run_command<S: Source, K: Sink, F: Folder>(
    alloc: Global,
    source: &mut S,
    sink: &mut K,
    folder: &mut F,
    command: Command,
) -> Result<(), ToolError>
    ensures ends { ReadsNoScript command → Ends command (folder_seen F.Folder folder.old) (sink_seen K.Sink sink.old) result (folder_seen F.Folder folder.new) (sink_seen K.Sink sink.new) }
    ensures replay { command ≡ Replay → EndsReplay (source_seen S.Source source.old) (sink_seen K.Sink sink.old) result (source_seen S.Source source.new) (sink_seen K.Sink sink.new) }
    ensures source { ReadsNoScript command → source.new ≡ source.old }
    ensures folder { command ≡ Replay → folder.new ≡ folder.old }
{
    match command {
        Command::Set { key, value } => change(alloc, folder, EditStep::Set { key, value }),
        Command::Get { key } => get(alloc, sink, folder, &key),
        Command::Remove { key } => change(alloc, folder, EditStep::Remove { key }),
        Command::Show => show(alloc, sink, folder),
        Command::Replay => print_run(alloc, source, sink),
    }
}

/// Writes the line of the error, and gives the status: where a write fails, that stands over it.
fn tell<K: Sink>(sink: &mut K, error: ToolError) -> Status
    ensures { Reports (Err error) (line_of error) result (sink_seen K.Sink sink.old) (sink_seen K.Sink sink.new) }
{
    match write_line(sink, error) {
        Ok(()) => error.status(),
        Err(_) => Status::WriteFault,
    }
}
