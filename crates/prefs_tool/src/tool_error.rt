ghost use Rattle.std.specs.Prelude.{◌≡◌, ◌↔◌, IsTrue};
ghost use Rattle.prefs_tool.specs.declared.tool_error.ToolError.TheVariants.{Storage, WriteFault, NoMemory};
ghost use Rattle.prefs_tool.specs.Status.{status_of};

use crate::Status;
use scratch_rename::{Filled, Fresh, Renamed, Synced};
use script_lang::ScriptFault;
use std::alloc::{AllocError, AllocFailed};
use store_traits::Failed;

/// Why a command did not go well.
#[derive(Clone, Copy, Debug, PartialEq, Eq)]
pub(crate) enum ToolError {
    Words,
    /// The first faulty line, and the least of its faults.
    Script { line: u64, fault: ScriptFault },
    /// There are more bytes than a script may have.
    ScriptTooLong,
    Storage,
    Corrupt,
    /// Main has `len` bytes.
    TooLong { len: u64 },
    /// The edit weighs too much.
    EditTooLong,
    /// The new text would have `len` bytes.
    ValueTooLong { len: u64 },
    ReadFault,
    WriteFault,
    NoMemory,
    NoKey,
}

impl ToolError {
    pub(crate) fn status(self) -> Status
        ensures { result ≡ status_of self }
    {
        match self {
            ToolError::Words => Status::Words,
            ToolError::Script { .. } | ToolError::ScriptTooLong => Status::Script,
            ToolError::Storage => Status::Storage,
            ToolError::Corrupt | ToolError::TooLong { .. } => Status::Corrupt,
            ToolError::EditTooLong | ToolError::ValueTooLong { .. } => Status::Refused,
            ToolError::ReadFault => Status::ReadFault,
            ToolError::WriteFault => Status::WriteFault,
            ToolError::NoMemory => Status::NoMemory,
            ToolError::NoKey => Status::NoKey,
        }
    }

    /// Whether a write failed, so that nothing more is written.
    pub(crate) fn is_write_fault(self) -> bool
        ensures { IsTrue result ↔ (self ≡ WriteFault) }
    {
        matches!(self, ToolError::WriteFault)
    }
}

impl From<Failed> for ToolError {
    ghost from_gives = { λ _ e. e ≡ Storage };

    fn from(_: Failed) -> ToolError {
        ToolError::Storage
    }
}

// A plan comes back where the folder failed.
impl From<Fresh> for ToolError {
    ghost from_gives = { λ _ e. e ≡ Storage };

    fn from(_: Fresh) -> ToolError {
        ToolError::Storage
    }
}

impl From<Filled> for ToolError {
    ghost from_gives = { λ _ e. e ≡ Storage };

    fn from(_: Filled) -> ToolError {
        ToolError::Storage
    }
}

impl From<Synced> for ToolError {
    ghost from_gives = { λ _ e. e ≡ Storage };

    fn from(_: Synced) -> ToolError {
        ToolError::Storage
    }
}

impl From<Renamed> for ToolError {
    ghost from_gives = { λ _ e. e ≡ Storage };

    fn from(_: Renamed) -> ToolError {
        ToolError::Storage
    }
}

impl From<AllocError> for ToolError {
    ghost from_gives = { λ _ e. e ≡ NoMemory };

    fn from(_: AllocError) -> ToolError {
        ToolError::NoMemory
    }
}

impl<T: Drop> From<AllocFailed<T>> for ToolError {
    ghost from_gives = { λ _ e. e ≡ NoMemory };

    fn from(_: AllocFailed<T>) -> ToolError {
        ToolError::NoMemory
    }
}
