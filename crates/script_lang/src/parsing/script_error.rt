use script_words::WordsError;
use std::alloc::AllocError;
use thiserror::Error;

/// Why bytes are no script: the first faulty line, counted from 1, and the least of its faults.
#[derive(Clone, Copy, Debug, PartialEq, Eq, Error)]
#[error("line {line}: {fault}")]
pub struct ScriptError {
    pub line: u64,
    pub fault: ScriptFault,
}

/// What a line of a script breaks, from the least on.
#[derive(Clone, Copy, Debug, PartialEq, Eq, Error)]
pub enum ScriptFault {
    /// It is not UTF-8.
    #[error("not UTF-8")]
    NotUtf8,
    /// It has more than 4,096 bytes.
    #[error("the line is too long")]
    LineTooLong,
    /// 100,000 lines stand before it.
    #[error("too many lines")]
    TooManyLines,
    /// A word in a place for one of a few words is none of these.
    #[error("an unknown word")]
    UnknownWord,
    /// A word cannot be read, is out of range, is missing or is left over.
    #[error("a bad value")]
    BadValue,
    /// No node or client has that name.
    #[error("an unknown name")]
    UnknownName,
    /// A new name is a word of the lines or of the calls, or a node or a client has it.
    #[error("the name is taken")]
    NameTaken,
    /// It would be the 17th node or the 65th client.
    #[error("too many names")]
    TooManyNames,
    /// The line may not stand behind those before it.
    #[error("the line is in a wrong place")]
    WrongPlace,
    #[error("out of memory")]
    NoMemory,
}

impl From<AllocError> for ScriptFault {
    ghost use Rattle.script_lang.specs.declared.parsing.script_error.ScriptFault.TheVariants.{NoMemory};
    ghost use Rattle.std.specs.Prelude.{◌≡◌};

    ghost from_gives = { λ _ fault. fault ≡ NoMemory };

    fn from(_refused: AllocError) -> ScriptFault {
        ScriptFault::NoMemory
    }
}

impl From<WordsError> for ScriptFault {
    ghost use Rattle.script_lang.specs.FaultOfWords.{fault_of_words};
    ghost use Rattle.std.specs.Prelude.{◌≡◌};

    ghost from_gives = { λ told fault. fault ≡ fault_of_words told };

    fn from(told: WordsError) -> ScriptFault {
        match told {
            WordsError::UnknownWord => ScriptFault::UnknownWord,
            WordsError::BadValue => ScriptFault::BadValue,
            WordsError::NoMemory => ScriptFault::NoMemory,
        }
    }
}
