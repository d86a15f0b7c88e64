//! Whether a transcript tells the truth of its script is told by a test: each law is the contract of a function that does
//! nothing. What bytes read as is tested outright for the files of the examples.
ghost use Rattle.script_lang.specs.declared.plan.script.Script.{Script};
ghost use Rattle.script_lang.specs.declared.transcripts.transcript.Transcript.{Transcript};
ghost use Rattle.script_lang.specs.Good.{Good};
ghost use Rattle.script_lang.specs.Rules.{Breaks, Rule};
ghost use Rattle.script_lang.specs.TruthExamples as example;
ghost use Rattle.script_lang.specs.TruthTests.{ReadingTests, TruthTests};
ghost use Rattle.std.specs.Prelude.{List};
ghost use Rattle.prefs_edit.specs.declared.edit_step.EditStep.{EditStep};
ghost use Rattle.prefs_model.specs.declared.pref_pair.PrefPair.{PrefPair};
ghost use Rattle.prefs_text.specs.EntryText.{PrefEntry};
ghost use Rattle.shelf.specs.declared.store.Store.{Store};
ghost use Rattle.shelf.specs.Decided.{Decided};
ghost use Rattle.shelf.specs.Legal.{Legal};
ghost use Rattle.shelf.specs.Meanings.{Meanings};

/// A test is true exactly where a transcript tells the truth of its script, and one for each rule exactly where it holds;
/// where a rule is broken, the transcript does not tell the truth.
pub fn truth_has_tests()
    ensures reading { ReadingTests example.basis }
    ensures truth { TruthTests example.basis }
    ensures broken { (rule : Rule) (script : Script) (transcript : Transcript) → Breaks example.basis rule script transcript → ¬ Good example.basis script transcript }
{}

/// Whether a history of settings is lawful has a test.
pub fn histories_have_tests()
    ensures { (m : Meanings (List PrefPair) (List EditStep)) (s : Store (List PrefPair) (Unit {0})) (list : List PrefEntry) → Decided (Legal m s list) }
{}
