//! A value with an invariant, and a codec, a transform and a handler of it.
ghost use Rattle.std.specs.Prelude.{◌≡◌, ◌≤◌, ◌+◌, ℕ, List, [], ◌∷◌, nat_le, if◌then◌else◌, slice_index, option_map, refl};
ghost use Rattle.std.proofs.Common.{ap, sym, ◌∙◌};
ghost use Rattle.store_traits.specs.declared.applied.Applied.TheVariants.{Changed, Refused};

use crate::{Applied, Codec, Decoded, FileBytes, Handler, Transform};
use std::alloc::{AllocError, Global};
use std::marker::Model;

/// A number up to 100.
#[derive(Drop)]
pub struct Percent {
    value: u8,
}

impl Model for Percent {
    ghost Value = { ℕ };

    ghost view = { λ p. p.value };

    ghost invariant = { λ p. p.value ≤ 100 };
}

impl Percent {
    pub fn new(value: u8) -> Percent
        requires { value ≤ 100 }
        ensures { result ≡ value }
    {
        Percent { value }
    }

    pub fn get(&self) -> u8
        ensures value { result ≡ self.now }
        ensures within { result ≤ 100 }
    {
        self.value
    }
}

/// Writes a percentage as one byte.
#[derive(Drop)]
pub struct OneByte;

impl Codec for OneByte {
    type Value = Percent;

    ghost is_value = { λ _ p. p ≤ 100 };

    ghost reads = { λ _ bytes p. (bytes ≡ p ∷ []) × (p ≤ 100) };

    ghost encoded = { λ _ p. p ∷ [] };

    ghost default_of = { λ _. 0 };

    ghost read_back = { λ _ p known short. (refl, known) };

    ghost read_once = { λ _ bytes p q first second. ap (λ (read : List ℕ). slice_index read 0) (sym first.0 ∙ second.0) };

    ghost read_known = { λ _ bytes p read. read.1 };

    fn known(&self, value: &Percent) {
        let _ = value.get();
    }

    fn decode(&self, _alloc: Global, bytes: &[u8]) -> Result<Decoded<Percent>, AllocError> {
        match bytes {
            [value] if *value <= 100 => Ok(Decoded::Good(Percent::new(*value))),
            _ => Ok(Decoded::Corrupt),
        }
    }

    fn encode(&self, alloc: Global, value: &Percent) -> Result<FileBytes, AllocError> {
        Ok(FileBytes::new(vec![in alloc; value.get()]?))
    }

    fn encoded_len(&self, _value: &Percent) -> u64 {
        1
    }

    fn default_value(&self, _alloc: Global) -> Result<Percent, AllocError> {
        Ok(Percent::new(0))
    }

    fn equal(&self, a: &Percent, b: &Percent) -> bool {
        a.get() == b.get()
    }

    fn copy(&self, _alloc: Global, value: &Percent) -> Result<Percent, AllocError> {
        Ok(Percent::new(value.get()))
    }
}

/// Adds to a percentage; past 100 it refuses with code 2.
#[derive(Drop)]
pub struct Raise {
    pub by: u8,
}

impl Transform for Raise {
    type Value = Percent;

    ghost after = { λ raise p. if nat_le (p + raise.by) 100 then Changed (p + raise.by) else Refused 2 };

    ghost weight_of = { λ raise. raise.by };

    fn apply(&self, _alloc: Global, old: &Percent) -> Result<Applied<Percent>, AllocError> {
        let sum = u16::from(old.get()) + u16::from(self.by);
        if sum <= 100 {
            Ok(Applied::Changed(Percent::new(sum as u8)))
        } else {
            Ok(Applied::Refused(2))
        }
    }

    fn weight(&self) -> u32 {
        u32::from(self.by)
    }
}

/// Has one value, or none.
#[derive(Drop)]
pub struct Fixed {
    pub value: Option<u8>,
}

impl Handler for Fixed {
    type Value = u8;

    ghost replacement_of = { λ fixed. fixed.value };

    fn has_value(&self) -> bool {
        self.value.is_some()
    }

    fn replacement(&self, _alloc: Global) -> Result<Option<u8>, AllocError> {
        Ok(self.value)
    }
}
