ghost use Rattle.std.specs.Prelude.{◌≡◌, [], ◌∷◌, ◌++◌, All, OnOk, OnErr};

use crate::keyed::Keyed;
use std::alloc::{AllocError, Global};
use std::marker::Model;

/// Items in the order in which they came, to be sorted at once. Clauses see the list.
#[derive(Drop)]
pub struct Entries<T: Keyed> {
    items: Vec<T>,
}

impl<T: Keyed> Model for Entries<T> {
    ghost use Rattle.std.specs.Prelude.{List, All};

    ghost Value = { List T };

    ghost view = { λ e. e.items.items };

    ghost invariant = { λ e. All T.is_valid e.items.items };
}

impl<T: Keyed> Entries<T> {
    /// No items, which take no memory yet.
    pub fn new(alloc: Global) -> Entries<T>
        ensures { result ≡ [] }
    {
        Entries {
            items: Vec::new(alloc),
        }
    }

    /// Adds an item at the end. A refusal leaves the items as they were.
    pub fn push(&mut self, item: T) -> Result<(), AllocError>
        ensures ok { OnOk result (self.new ≡ self.old ++ item ∷ []) }
        ensures err { OnErr result (self.new ≡ self.old) }
    {
        item.know_valid();
        self.items.push(item)?;
        Ok(())
    }

    /// The items, without taking memory.
    pub(crate) fn into_vec(self) -> Vec<T>
        ensures items { result.items ≡ self }
        ensures valid { All T.is_valid self }
    {
        self.items
    }
}
