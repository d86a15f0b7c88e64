use thiserror::Error;

/// Why steps are no edit. The count is tested first.
#[derive(Clone, Copy, Debug, PartialEq, Eq, Error)]
pub enum EditError {
    /// The steps weigh more than 65,536. A weight that no `u64` holds is told as the greatest `u64`.
    #[error("an edit of weight {weight} is too long")]
    EditTooLong { weight: u64 },
    /// There are not 1 to 16 steps.
    #[error("an edit has 1 to 16 steps, not {count}")]
    Count { count: u64 },
}

impl EditError {
    ghost use Rattle.prefs_edit.specs.Edit.{error_code};
    ghost use Rattle.std.specs.Prelude.{◌≡◌};

    /// The number that callers know the refusal by: 4 or 5.
    pub fn code(self) -> u32
        ensures { result ≡ error_code self }
    {
        match self {
            EditError::EditTooLong { .. } => 4,
            EditError::Count { .. } => 5,
        }
    }
}
