ghost use Rattle.std.specs.Prelude.{◌≡◌, ◌==◌, [], length, ◌∷◌, ◌++◌, OnOk};

use std::alloc::{AllocError, Global};
use std::marker::Model;

/// Values in order. Clauses see the list of them.
#[derive(Drop)]
pub struct Series<T> {
    items: Vec<T>,
}

impl<T> Model for Series<T> {
    ghost use Rattle.std.specs.Prelude.{List};

    ghost Value = { List T };

    ghost view = { λ series. series.items.items };
}

impl<T> Series<T> {
    /// No values. It takes no memory.
    pub fn new(alloc: Global) -> Series<T>
        ensures { result ≡ [] }
    {
        Series {
            items: Vec::new(alloc),
        }
    }

    /// It takes no memory.
    pub fn from_vec(items: Vec<T>) -> Series<T>
        ensures { result ≡ items.items }
    {
        Series { items }
    }

    /// It takes no memory.
    pub fn into_vec(self) -> Vec<T>
        ensures { result.items ≡ self }
    {
        self.items
    }

    pub fn as_slice(&self) -> &[T]
        ensures { result.now ≡ self.now }
    {
        &self.items
    }

    pub fn is_empty(&self) -> bool
        ensures { result ≡ (length self.now == 0) }
    {
        self.items.is_empty()
    }

    /// Adds a value at the end.
    pub fn push(&mut self, item: T) -> Result<(), AllocError>
    where
        T: Drop,
        ensures { OnOk result (self.new ≡ self.old ++ item ∷ []) }
    {
        self.items.push(item)?;
        Ok(())
    }
}
