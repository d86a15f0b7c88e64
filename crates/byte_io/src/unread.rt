ghost use Rattle.std.specs.Prelude.{◌≡◌, ◌≤◌, List, ℕ, drop, length, take, min};
ghost use Rattle.byte_io.specs.Source.{Takes};

use std::marker::Model;
use store_traits::FileBytes;

/// Bytes that are read from the front. Clauses see those that are left.
#[derive(Drop)]
pub(crate) struct Unread {
    bytes: FileBytes,
    taken: usize,
}

impl Model for Unread {
    ghost Value = { List ℕ };

    ghost view = { λ u. drop u.taken u.bytes };

    ghost invariant = { λ u. u.taken ≤ length u.bytes };
}

impl Unread {
    pub(crate) fn new(bytes: FileBytes) -> Unread
        ensures { result ≡ bytes }
    {
        Unread { bytes, taken: 0 }
    }

    /// Takes as many bytes as there are and `into` has room for, and says how many.
    pub(crate) fn read(&mut self, into: &mut [u8]) -> usize
        ensures len { result ≡ min (length self.old) (length into.old) }
        ensures taken { Takes self.old (length into.old) result into.new self.new }
    {
        let left = &self.bytes.as_slice()[self.taken..];
        let len = left.len().min(into.len());
        into[..len].copy_from_slice(&left[..len]);
        self.taken += len;
        len
    }
}
