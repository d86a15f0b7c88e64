use prefs_edit::EditError;
use prefs_text::ValueTextError;
use thiserror::Error;

/// Why words cannot be read. Where several hold, the first of these is told.
#[derive(Clone, Copy, Debug, PartialEq, Eq, Error)]
pub enum WordsError {
    /// A word in the place of a step's name or of a kind is none.
    #[error("a word names no step or no kind")]
    UnknownWord,
    /// A word cannot be read, is out of range, is too long, is missing or is left over.
    #[error("a word cannot be read, is missing or is left over")]
    BadValue,
    #[error("out of memory")]
    NoMemory,
}

impl From<std::alloc::AllocError> for WordsError {
    ghost use Rattle.script_words.specs.declared.words_error.WordsError.TheVariants.{NoMemory};
    ghost use Rattle.std.specs.Prelude.{◌≡◌};

    ghost from_gives = { λ _ error. error ≡ NoMemory };

    fn from(_refused: std::alloc::AllocError) -> WordsError {
        WordsError::NoMemory
    }
}

impl From<EditError> for WordsError {
    ghost use Rattle.script_words.specs.declared.words_error.WordsError.TheVariants.{BadValue};
    ghost use Rattle.std.specs.Prelude.{◌≡◌};

    ghost from_gives = { λ _ error. error ≡ BadValue };

    fn from(_refused: EditError) -> WordsError {
        WordsError::BadValue
    }
}

impl From<ValueTextError> for WordsError {
    ghost use Rattle.script_words.specs.Faults.{fault_of};
    ghost use Rattle.std.specs.Prelude.{◌≡◌};

    ghost from_gives = { λ told error. error ≡ fault_of told };

    fn from(told: ValueTextError) -> WordsError {
        match told {
            ValueTextError::UnknownKind => WordsError::UnknownWord,
            ValueTextError::BadText => WordsError::BadValue,
            ValueTextError::NoMemory => WordsError::NoMemory,
        }
    }
}
