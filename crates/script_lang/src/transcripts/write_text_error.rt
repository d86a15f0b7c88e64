use std::alloc::AllocError;
use store_traits::Failed;
use thiserror::Error;

/// Why a transcript was not written to its end.
#[derive(Clone, Copy, Debug, PartialEq, Eq, Error)]
pub enum WriteTextError {
    #[error("a write to the output failed")]
    WriteFault,
    #[error("out of memory")]
    NoMemory,
}

impl From<Failed> for WriteTextError {
    ghost use Rattle.std.specs.Prelude.{◌≡◌};
    ghost use Rattle.script_lang.specs.declared.transcripts.write_text_error.WriteTextError.TheVariants.{WriteFault};

    ghost from_gives = { λ _ e. e ≡ WriteFault };

    fn from(_: Failed) -> WriteTextError {
        WriteTextError::WriteFault
    }
}

impl From<AllocError> for WriteTextError {
    ghost use Rattle.std.specs.Prelude.{◌≡◌};
    ghost use Rattle.script_lang.specs.declared.transcripts.write_text_error.WriteTextError.TheVariants.{NoMemory};

    ghost from_gives = { λ _ e. e ≡ NoMemory };

    fn from(_: AllocError) -> WriteTextError {
        WriteTextError::NoMemory
    }
}
