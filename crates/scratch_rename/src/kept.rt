ghost use Rattle.std.specs.Prelude.{◌≡◌};

use std::marker::Model;
use store_traits::FileBytes;

/// A write that is main and that a machine stop leaves. Clauses see its bytes.
#[derive(Drop)]
pub struct Kept {
    bytes: FileBytes,
}

impl Model for Kept {
    ghost use Rattle.std.specs.Prelude.{List, ℕ};

    ghost Value = { List ℕ };

    ghost view = { λ plan. plan.bytes };
}

impl Kept {
    pub(crate) fn settled(bytes: FileBytes) -> Kept
        ensures { result ≡ bytes }
    {
        Kept { bytes }
    }
}
