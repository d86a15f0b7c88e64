ghost use Rattle.std.specs.Prelude.{◌≡◌, ◌↔◌, IsTrue};

use crate::keyed::Keyed;
use crate::{PrefKey, PrefValue};
use std::alloc::{AllocError, Global};

/// A key as it came, with its value or none.
#[derive(Drop)]
pub struct PrefEntry {
    pub key: PrefKey,
    pub value: Option<PrefValue>,
}

impl Keyed for PrefEntry {
    ghost use Rattle.prefs_model.specs.Entry.{name_of, IsEntry};

    ghost key_of = { name_of };

    ghost is_valid = { IsEntry };

    fn sort_key(&self) -> &str {
        self.key.as_str()
    }

    fn know_valid(&self) {
        let _ = self.key.as_str();
        if let Some(value) = &self.value {
            value.know_valid();
        }
    }

    fn is_equal_to(&self, other: &PrefEntry) -> bool {
        self.key.equal(&other.key) && same_value(&self.value, &other.value)
    }

    fn try_copy(&self, alloc: Global) -> Result<PrefEntry, AllocError> {
        let key = self.key.try_clone(alloc)?;
        let value = match &self.value {
            Some(value) => Some(value.try_clone(alloc)?),
            None => None,
        };
        Ok(PrefEntry { key, value })
    }
}

fn same_value(a: &Option<PrefValue>, b: &Option<PrefValue>) -> bool
    ensures { IsTrue result ↔ (a.now ≡ b.now) }
{
    match (a, b) {
        (Some(a), Some(b)) => a.equal(b),
        (None, None) => true,
        _ => false,
    }
}
