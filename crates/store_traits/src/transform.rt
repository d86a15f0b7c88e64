ghost use Rattle.std.specs.Prelude.{◌≡◌, ℕ, IfOk};
ghost use Rattle.store_traits.specs.declared.applied.Applied.{Applied};

use crate::Applied;
use std::alloc::{AllocError, Global};

/// A change of a value, which may be refused.
pub trait Transform: Drop {
    type Value: Drop;

    /// What it makes of a value: a value, or a code.
    ghost after: { Self → Self.Value → Applied Self.Value };

    /// How much it weighs in a history.
    ghost weight_of: { Self → ℕ };

    fn apply(&self, alloc: Global, old: &Self::Value) -> Result<Applied<Self::Value>, AllocError>
        ensures { IfOk result (λ applied. applied ≡ after self.now old.now) };

    fn weight(&self) -> u32
        ensures { result ≡ weight_of self.now };
}
