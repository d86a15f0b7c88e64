ghost use Rattle.std.specs.Prelude.{◌≡◌};
ghost use Rattle.prefs_edit.specs.declared.stop.Stop.TheVariants.{NoMemory};

use std::alloc::AllocError;

/// The code of a step on a value of another kind.
pub const WRONG_KIND: u32 = 1;

/// The code of a sum that its kind does not hold.
pub const OUT_OF_RANGE: u32 = 2;

/// The code of a required value that is not there.
pub const NOT_EQUAL: u32 = 3;

/// Why a step was not done.
#[derive(Clone, Copy)]
pub enum Stop {
    NoMemory,
    /// The step refuses, with its code.
    Code(u32),
}

impl From<AllocError> for Stop {
    ghost from_gives = { λ _ stop. stop ≡ NoMemory };

    fn from(_: AllocError) -> Stop {
        Stop::NoMemory
    }
}
