use thiserror::Error;

/// Why a text is no value.
#[derive(Clone, Copy, Debug, PartialEq, Eq, Error)]
pub enum ValueTextError {
    /// Its first word names no kind.
    #[error("the text names no kind of value")]
    UnknownKind,
    /// No value of its kind has this text.
    #[error("the text is no value of its kind")]
    BadText,
    #[error("out of memory")]
    NoMemory,
}

impl From<std::alloc::AllocError> for ValueTextError {
    ghost use Rattle.prefs_text.specs.declared.value_text_error.ValueTextError.TheVariants.{NoMemory};
    ghost use Rattle.std.specs.Prelude.{◌≡◌};

    ghost from_gives = { λ _ error. error ≡ NoMemory };

    fn from(_refused: std::alloc::AllocError) -> ValueTextError {
        ValueTextError::NoMemory
    }
}
