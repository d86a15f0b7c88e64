ghost use Rattle.std.specs.Prelude.{◌≡◌, Option, IfOk, is_some};

use std::alloc::{AllocError, Global};

/// What takes the place of an unreadable file, if anything does.
pub trait Handler: Drop {
    type Value: Drop;

    ghost replacement_of: { Self → Option Self.Value };

    fn has_value(&self) -> bool
        ensures { result ≡ is_some (replacement_of self.now) };

    fn replacement(&self, alloc: Global) -> Result<Option<Self::Value>, AllocError>
        ensures { IfOk result (λ value. value ≡ replacement_of self.now) };
}
