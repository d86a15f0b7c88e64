//! What scripts have, for all bytes: each law is the contract of a function that does nothing.
ghost use Rattle.std.specs.Prelude.{◌≡◌, ℕ, List};
ghost use Rattle.script_lang.specs.declared.plan.mode.Mode.{Mode};
ghost use Rattle.script_lang.specs.declared.plan.script.Script.{Script};
ghost use Rattle.script_lang.specs.declared.parsing.script_error.ScriptFault.{ScriptFault};
ghost use Rattle.script_lang.specs.Keeps.{Keeps};
ghost use Rattle.script_lang.specs.Meaning.{Faulty, Means};

/// Bytes are one script at most.
pub fn one_script()
    ensures { (mode : Mode) (bytes : List ℕ) (a b : Script) → Means mode bytes a → Means mode bytes b → a ≡ b }
{}

/// One line is the first faulty one, and one fault is its least.
pub fn one_fault()
    ensures { (mode : Mode) (bytes : List ℕ) (m n : ℕ) (a b : ScriptFault) → Faulty mode bytes m a → Faulty mode bytes n b → (m ≡ n) × (a ≡ b) }
{}

/// A script has no faulty line.
pub fn scripts_have_no_fault()
    ensures { (mode : Mode) (bytes : List ℕ) (script : Script) (number : ℕ) (fault : ScriptFault) → Means mode bytes script → ¬ Faulty mode bytes number fault }
{}

/// Bytes that are no script have a faulty line.
pub fn others_have_a_fault()
    ensures { (mode : Mode) (bytes : List ℕ) → ((script : Script) → ¬ Means mode bytes script) → ¬ ((number : ℕ) (fault : ScriptFault) → ¬ Faulty mode bytes number fault) }
{}

/// Each script keeps what is asked of scripts.
pub fn scripts_keep_their_rules()
    ensures { (mode : Mode) (bytes : List ℕ) (script : Script) → Means mode bytes script → Keeps script }
{}
