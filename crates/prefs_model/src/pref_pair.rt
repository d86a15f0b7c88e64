ghost use Rattle.std.specs.Prelude.{◌≡◌};

use crate::keyed::Keyed;
use crate::{PrefKey, PrefValue};
use std::alloc::{AllocError, Global};

/// A key and its value.
#[derive(Drop)]
pub struct PrefPair {
    pub key: PrefKey,
    pub value: PrefValue,
}

impl Keyed for PrefPair {
    ghost use Rattle.prefs_model.specs.Map.{key_of, IsPair};

    ghost key_of = { key_of };

    ghost is_valid = { IsPair };

    fn sort_key(&self) -> &str {
        self.key.as_str()
    }

    fn know_valid(&self) {
        let _ = self.key.as_str();
        self.value.know_valid();
    }

    fn is_equal_to(&self, other: &PrefPair) -> bool {
        self.key.equal(&other.key) && self.value.equal(&other.value)
    }

    fn try_copy(&self, alloc: Global) -> Result<PrefPair, AllocError> {
        let key = self.key.try_clone(alloc)?;
        let value = self.value.try_clone(alloc)?;
        Ok(PrefPair { key, value })
    }
}
