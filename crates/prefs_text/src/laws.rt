//! What texts of values have, for every text and value: each law is the contract of a function that does nothing.
ghost use Rattle.std.specs.Prelude.{◌≡◌, ℕ, List, All};
ghost use Rattle.prefs_model.specs.declared.pref_value.PrefValue.{PrefValue};
ghost use Rattle.prefs_model.specs.Value.{IsValue};
ghost use Rattle.prefs_edit.specs.declared.edit_step.EditStep.{EditStep};
ghost use Rattle.prefs_text.specs.declared.names.Names.{Names};
ghost use Rattle.prefs_text.specs.declared.seen.AnswerLineSeen.{AnswerLineSeen};
ghost use Rattle.prefs_text.specs.AnswerText.{answer_text};
ghost use Rattle.prefs_text.specs.Callers.{NamesAreInLine};
ghost use Rattle.prefs_text.specs.Content.{IsInLine};
ghost use Rattle.prefs_text.specs.EditText.{edit_text};
ghost use Rattle.prefs_text.specs.EntryText.{PrefEntry, entry_text};
ghost use Rattle.prefs_text.specs.Reading.{IsValueText};
ghost use Rattle.prefs_text.specs.ValueText.{value_text};

/// What is printed of a value is a text of it.
pub fn texts_read_back()
    ensures { (value : PrefValue) → IsValue value → IsValueText (value_text value) value }
{}

/// A text is one value's at most.
pub fn one_value()
    ensures { (text : List ℕ) (a b : PrefValue) → IsValueText text a → IsValueText text b → a ≡ b }
{}

/// The text of an edit breaks no line.
pub fn edits_are_in_line()
    ensures { (steps : List EditStep) → All IsInLine (edit_text steps) }
{}

/// The text of an entry breaks no line, unless a name does.
pub fn entries_are_in_line()
    ensures { (names : Names) (at : ℕ) (entry : PrefEntry) → NamesAreInLine names → All IsInLine (entry_text names at entry) }
{}

/// The text of an answer breaks no line, unless a name does.
pub fn answers_are_in_line()
    ensures { (names : Names) (line : AnswerLineSeen) → NamesAreInLine names → All IsInLine (answer_text names line) }
{}
