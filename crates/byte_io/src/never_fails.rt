ghost use Rattle.std.specs.Prelude.{◌≡◌, ℕ, List, true, IsOk};
ghost use Rattle.store_traits.specs.Faults.{Counts};
ghost use Rattle.byte_io.specs.Source.{Reads};

use crate::Source;
use crate::unread::Unread;
use std::marker::Model;
use store_traits::{Failed, FileBytes};

/// Bytes in memory, of which no read fails. Clauses see the bytes that are left.
#[derive(Drop)]
pub struct NeverFails {
    unread: Unread,
}

impl Model for NeverFails {
    ghost Value = { List ℕ };

    ghost view = { λ s. s.unread };
}

impl NeverFails {
    /// Takes no memory.
    pub fn new(bytes: FileBytes) -> NeverFails
        ensures { result ≡ bytes }
    {
        NeverFails {
            unread: Unread::new(bytes),
        }
    }
}

impl Source for NeverFails {
    ghost told = { true };

    ghost left = { λ s. s };

    ghost count = { λ _. 0 };

    fn read(&mut self, into: &mut [u8]) -> Result<usize, Failed> {
        Ok(self.unread.read(into))
    }
}
