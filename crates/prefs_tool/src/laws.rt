//! What the commands promise together: each law is the contract of a function that does nothing.
ghost use Rattle.std.specs.Prelude.{◌≡◌, ◌⊎◌, IsTrue};
ghost use Rattle.byte_io.specs.Seen.{SinkSeen, SourceSeen};
ghost use Rattle.folder_disk.specs.Seen.{FolderSeen};
ghost use Rattle.command_words.specs.declared.command.Command.{Command};
ghost use Rattle.command_words.specs.declared.command.Command.TheVariants.{Replay};
ghost use Rattle.script_lang.specs.declared.plan.script.Script.{Script};
ghost use Rattle.prefs_tool.specs.declared.status.Status.{Status};
ghost use Rattle.prefs_tool.specs.declared.status.Status.TheVariants as ended;
ghost use Rattle.prefs_tool.specs.Complete.{AreSound, IsDone, IsScript, IsToldBy, NothingAgainst};
ghost use Rattle.prefs_tool.specs.Outcome.{Outcome, RefusesWords};
ghost use Rattle.prefs_tool.specs.Replaying.{Printed, Replayed};

/// Where nothing stands against a command, it is done, or memory was wanting.
pub fn sound_commands_are_done()
    ensures { (command : Command) (status : Status) (folder folder_after : FolderSeen) (sink sink_after : SinkSeen)
        → Outcome command folder sink status folder_after sink_after → NothingAgainst command folder folder_after sink sink_after
        → IsDone command status }
{}

/// A fault of the folder and one of the sink has its status, which is given exactly where that count rose; the sink's
/// stands over the folder's.
pub fn faults_have_their_status()
    ensures sink { (command : Command) (status : Status) (folder folder_after : FolderSeen) (sink sink_after : SinkSeen)
        → Outcome command folder sink status folder_after sink_after → IsToldBy ended.WriteFault status sink.count sink_after.count }
    ensures folder { (command : Command) (status : Status) (folder folder_after : FolderSeen) (sink sink_after : SinkSeen)
        → Outcome command folder sink status folder_after sink_after → IsToldBy ended.Storage status folder.tally.count folder_after.tally.count }
    ensures words { (status : Status) (sink sink_after : SinkSeen)
        → RefusesWords status sink sink_after → IsToldBy ended.WriteFault status sink.count sink_after.count }
{}

/// So it is with the source and the sink of `replay`.
pub fn replay_faults_have_their_status()
    ensures sink { (status : Status) (source source_after : SourceSeen) (sink sink_after : SinkSeen)
        → Replayed source sink status source_after sink_after → IsToldBy ended.WriteFault status sink.count sink_after.count }
    ensures source { (status : Status) (source source_after : SourceSeen) (sink sink_after : SinkSeen)
        → Replayed source sink status source_after sink_after → IsToldBy ended.ReadFault status source.count source_after.count }
{}

/// Where the source and the sink are told and `replay` went well, the source was read to its end, its bytes are a
/// script, and the sink gained the text of what that script comes to.
pub fn replay_prints_the_run()
    ensures { (source source_after : SourceSeen) (sink sink_after : SinkSeen)
        → IsTrue source.told → IsTrue sink.told → Replayed source sink ended.Done source_after sink_after
        → Printed source sink source_after sink_after }
{}

/// What is printed hangs on the bytes of the source, and on what the sink held, alone.
pub fn scripts_have_one_print()
    ensures { (source source_after source_otherwise : SourceSeen) (sink sink_after sink_otherwise : SinkSeen)
        → Printed source sink source_after sink_after → Printed source sink source_otherwise sink_otherwise
        → sink_after.held ≡ sink_otherwise.held }
{}

/// Where a told source's bytes are a script within the limit, and neither the source nor the sink failed, its run is
/// printed, or memory was wanting.
pub fn scripts_are_replayed()
    ensures { (script : Script) (status : Status) (source source_after : SourceSeen) (sink sink_after : SinkSeen)
        → Replayed source sink status source_after sink_after → AreSound source source_after sink sink_after
        → IsScript source.left script → IsDone Replay status }
{}

/// Where they are none, or too many, that is told, or memory was wanting.
pub fn other_bytes_are_refused()
    ensures { (status : Status) (source source_after : SourceSeen) (sink sink_after : SinkSeen)
        → Replayed source sink status source_after sink_after → AreSound source source_after sink sink_after
        → ((script : Script) → IsScript source.left script → ⊥)
        → (status ≡ ended.Script) ⊎ (status ≡ ended.NoMemory) }
{}
