//! What runs of scripts give: each law is the contract of a function that does nothing.
ghost use Rattle.std.specs.Prelude.{◌≡◌};
ghost use Rattle.folder_disk.specs.Tally.{Tally};
ghost use Rattle.step_table.specs.World.{Begins};
ghost use Rattle.script_lang.specs.declared.plan.script.Script.{Script};
ghost use Rattle.script_lang.specs.declared.transcripts.transcript.Transcript.{Transcript};
ghost use Rattle.script_lang.specs.Good.{Good};
ghost use Rattle.script_lang.specs.Keeps.{Keeps};
ghost use Rattle.script_lang.specs.TruthTests.{ReadingTests, TruthTests};
ghost use Rattle.replay_run.specs.PrefsBasis.{prefs_basis};
ghost use Rattle.replay_run.specs.ScriptRun.{Runs};
ghost use Rattle.replay_run.specs.Settings.{PrefStore};
ghost use Rattle.replay_run.specs.Start.{world_of};
ghost use Rattle.replay_run.specs.Typed.{IsTyped};

/// A run of a script that keeps its rules, whose keys and values are what their types say, gives a transcript that tells
/// the truth of it.
pub fn runs_are_good()
    ensures { (script : Script) (transcript : Transcript) → Keeps script → IsTyped script → Runs prefs_basis script transcript → Good prefs_basis script transcript }
{}

/// Such a script has a run: it cannot be that it has none.
pub fn scripts_have_a_run()
    ensures { (script : Script) → Keeps script → IsTyped script → ((transcript : Transcript) → Runs prefs_basis script transcript → ⊥) → ⊥ }
{}

/// With a test of whether the bytes of a file read as a map, and one of whether they read as none, a test is true exactly
/// where a transcript tells the truth of its script, and one for each rule exactly where it holds.
pub fn truth_has_tests_of_settings()
    ensures { ReadingTests prefs_basis → TruthTests prefs_basis }
{}

/// A script comes to one transcript at most: the runs of it give the same, however many rounds they take.
pub fn scripts_have_one_run()
    ensures { (script : Script) (one other : Transcript) → Runs prefs_basis script one → Runs prefs_basis script other → one ≡ other }
{}

/// The world in which a session of a run starts is one in which a session of its store begins.
pub fn runs_start_as_sessions_begin()
    ensures { (s : PrefStore) (tally : Tally) → tally.count ≡ s.folder.count → Begins s (world_of tally s) }
{}
