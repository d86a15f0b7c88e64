ghost use Rattle.std.specs.Prelude.{◌≡◌};
ghost use Rattle.prefs_tool.specs.Status.{code_of};

/// How a command ended.
#[derive(Clone, Copy, Debug, PartialEq, Eq)]
pub enum Status {
    /// All went well.
    Done,
    /// The words are no command.
    Words,
    /// What was read is no script, or is longer than a script may be.
    Script,
    /// The folder failed.
    Storage,
    /// Main reads as no map, or is longer than a file may be.
    Corrupt,
    /// The edit is too long, or the new text would be longer than a file may be.
    Refused,
    /// The source failed.
    ReadFault,
    /// The sink failed.
    WriteFault,
    /// There was not enough memory.
    NoMemory,
    /// The key that was asked for is not there.
    NoKey,
}

impl Status {
    /// The exit status of the program, from 0 to 9.
    pub fn code(self) -> u8
        ensures { result ≡ code_of self }
    {
        match self {
            Status::Done => 0,
            Status::Words => 1,
            Status::Script => 2,
            Status::Storage => 3,
            Status::Corrupt => 4,
            Status::Refused => 5,
            Status::ReadFault => 6,
            Status::WriteFault => 7,
            Status::NoMemory => 8,
            Status::NoKey => 9,
        }
    }
}
