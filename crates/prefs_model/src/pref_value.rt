ghost use Rattle.std.specs.Prelude.{◌≡◌, ◌↔◌, IsTrue, IfOk};

use crate::{PrefText, TextSet};
use std::alloc::{AllocError, Global};

/// The value of a setting.
#[derive(Drop)]
pub enum PrefValue {
    Bool(bool),
    Int(i32),
    Long(i64),
    /// The bits of a number of single precision.
    Float(u32),
    /// The bits of a number of double precision.
    Double(u64),
    Text(PrefText),
    Texts(TextSet),
}

impl PrefValue {
    ghost use Rattle.prefs_model.specs.Value.{IsValue};

    /// Whether both are of one kind and the same value. Numbers of floating point are equal where their bits are.
    pub fn equal(&self, other: &PrefValue) -> bool
        ensures { IsTrue result ↔ (self.now ≡ other.now) }
    {
        match (self, other) {
            (PrefValue::Bool(a), PrefValue::Bool(b)) => a == b,
            (PrefValue::Int(a), PrefValue::Int(b)) => a == b,
            (PrefValue::Long(a), PrefValue::Long(b)) => a == b,
            (PrefValue::Float(a), PrefValue::Float(b)) => a == b,
            (PrefValue::Double(a), PrefValue::Double(b)) => a == b,
            (PrefValue::Text(a), PrefValue::Text(b)) => a.equal(b),
            (PrefValue::Texts(a), PrefValue::Texts(b)) => a.equal(b),
            _ => false,
        }
    }

    /// An equal value.
    pub fn try_clone(&self, alloc: Global) -> Result<PrefValue, AllocError>
        ensures { IfOk result (λ value. value ≡ self.now) }
    {
        Ok(match self {
            PrefValue::Bool(b) => PrefValue::Bool(*b),
            PrefValue::Int(number) => PrefValue::Int(*number),
            PrefValue::Long(number) => PrefValue::Long(*number),
            PrefValue::Float(bits) => PrefValue::Float(*bits),
            PrefValue::Double(bits) => PrefValue::Double(*bits),
            PrefValue::Text(text) => PrefValue::Text(text.try_clone(alloc)?),
            PrefValue::Texts(texts) => PrefValue::Texts(texts.try_clone(alloc)?),
        })
    }

    // Reads the value and tells nothing but that it is one.
    pub(crate) fn know_valid(&self)
        ensures { IsValue self.now }
    {
        match self {
            PrefValue::Bool(_) => {}
            PrefValue::Int(number) => {
                let _number = *number;
            }
            PrefValue::Long(number) => {
                let _number = *number;
            }
            PrefValue::Float(bits) => {
                let _bits = *bits;
            }
            PrefValue::Double(bits) => {
                let _bits = *bits;
            }
            PrefValue::Text(text) => {
                let _ = text.as_str();
            }
            PrefValue::Texts(texts) => {
                let _ = texts.texts();
            }
        }
    }
}
