ghost use Rattle.std.specs.Prelude.{◌≡◌, IfOk};

use prefs_model::{PrefKey, PrefText, PrefValue};
use std::alloc::{AllocError, Global};

/// One change of a map of settings, or one condition on it.
///
/// A step may refuse, and then the whole edit is refused with its code: 1 where the key has a value of another
/// kind, 2 where a sum is outside the kind's range, 3 where a required value is not there.
#[derive(Drop)]
pub enum EditStep {
    /// The key has the value.
    Set { key: PrefKey, value: PrefValue },
    /// The key is gone.
    Remove { key: PrefKey },
    /// The map is empty.
    Clear,
    /// The Int rises by the amount; a missing key counts as 0. Codes 1 and 2.
    AddInt { key: PrefKey, amount: i32 },
    /// The Long rises by the amount; a missing key counts as 0. Codes 1 and 2.
    AddLong { key: PrefKey, amount: i64 },
    /// The Bool is turned over; a missing key counts as false. Code 1.
    Toggle { key: PrefKey },
    /// The set has the text; a missing key counts as the empty set. Code 1.
    InsertText { key: PrefKey, text: PrefText },
    /// The set does not have the text; a missing key stays missing. Code 1.
    RemoveText { key: PrefKey, text: PrefText },
    /// Nothing changes, but the key must have this value, equal in kind and content. Code 3.
    Require { key: PrefKey, value: PrefValue },
}

impl EditStep {
    /// An equal step.
    pub fn try_clone(&self, alloc: Global) -> Result<EditStep, AllocError>
        ensures { IfOk result (λ step. step ≡ self.now) }
    {
        Ok(match self {
            EditStep::Set { key, value } => EditStep::Set {
                key: key.try_clone(alloc)?,
                value: value.try_clone(alloc)?,
            },
            EditStep::Remove { key } => EditStep::Remove {
                key: key.try_clone(alloc)?,
            },
            EditStep::Clear => EditStep::Clear,
            EditStep::AddInt { key, amount } => EditStep::AddInt {
                key: key.try_clone(alloc)?,
                amount: *amount,
            },
            EditStep::AddLong { key, amount } => EditStep::AddLong {
                key: key.try_clone(alloc)?,
                amount: *amount,
            },
            EditStep::Toggle { key } => EditStep::Toggle {
                key: key.try_clone(alloc)?,
            },
            EditStep::InsertText { key, text } => EditStep::InsertText {
                key: key.try_clone(alloc)?,
                text: text.try_clone(alloc)?,
            },
            EditStep::RemoveText { key, text } => EditStep::RemoveText {
                key: key.try_clone(alloc)?,
                text: text.try_clone(alloc)?,
            },
            EditStep::Require { key, value } => EditStep::Require {
                key: key.try_clone(alloc)?,
                value: value.try_clone(alloc)?,
            },
        })
    }
}
