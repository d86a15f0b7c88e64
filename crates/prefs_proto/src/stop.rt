ghost use Rattle.std.specs.Prelude.{◌≡◌};
ghost use Rattle.prefs_proto.specs.declared.stop.Stop.TheVariants.{NoMemory};

use std::alloc::AllocError;
use wire_codec::WireError;

/// Why reading ends before the end of the bytes.
#[derive(Clone, Copy, Debug, PartialEq, Eq)]
pub(crate) enum Stop {
    Wire(WireError),
    NoMemory,
}

impl From<AllocError> for Stop {
    ghost from_gives = { λ _ e. e ≡ NoMemory };

    fn from(_: AllocError) -> Stop {
        Stop::NoMemory
    }
}
