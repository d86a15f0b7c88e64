ghost use Rattle.std.specs.Prelude.{◌↔◌, IsTrue, Any};
ghost use Rattle.script_words.specs.Words.{texts_at};
ghost use Rattle.script_words.specs.Parts.{parts_at};
ghost use Rattle.script_words.specs.Unknown.{HasUnknownKind, HasUnknownWord};

use crate::StepKind;
use prefs_text::ValueKind;

/// Whether a word of some part is in the place of a step's name or of a kind, and is none.
pub(crate) fn some_has_unknown_word(parts: &[&[&str]]) -> bool
    ensures { IsTrue result ↔ Any HasUnknownWord (parts_at parts.now) }
{
    parts.iter().any(|part| has_unknown_word(part))
}

/// The same of the words of one step.
pub(crate) fn has_unknown_word(words: &[&str]) -> bool
    ensures { IsTrue result ↔ HasUnknownWord (texts_at words.now) }
{
    let [name, behind @ ..] = words else {
        return false;
    };
    match StepKind::from_name(name) {
        Some(StepKind::Set | StepKind::Require) => has_unknown_kind(behind),
        Some(_) => false,
        None => *name != "many",
    }
}

/// Whether there is a word behind the key that names no kind.
fn has_unknown_kind(words: &[&str]) -> bool
    ensures { IsTrue result ↔ HasUnknownKind (texts_at words.now) }
{
    match words {
        [_, kind, ..] => ValueKind::from_name(kind).is_none(),
        _ => false,
    }
}
