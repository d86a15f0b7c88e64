ghost use Rattle.std.specs.Prelude.{◌≡◌, ◌≤◌, ◌+◌, ◌-◌, ◌++◌, [], max, OnOk, OnErr, length, vec_len};
ghost use Rattle.std.specs.Vec.{vec_capacity};
ghost use Rattle.folder_disk.specs.Contents.{Unsynced, Synced, Gone, IsThere, scratch_bytes};
ghost use Rattle.folder_disk.specs.MemScratch.{ScratchSeen, scratch_of, is_on_disk};

use std::alloc::{AllocError, Global};
use std::marker::Model;
use std::mem;
use store_traits::FileBytes;

/// Whether a scratch file is there, and on the disk.
#[derive(Clone, Copy, PartialEq, Eq)]
pub(crate) enum ScratchState {
    Missing,
    Written,
    OnDisk,
}

/// The scratch file of a folder in memory, with memory for more bytes.
#[derive(Drop)]
pub(crate) struct MemScratch {
    bytes: Vec<u8>,
    state: ScratchState,
    room: u64,
}

impl Model for MemScratch {
    ghost Value = { ScratchSeen };

    ghost view = { λ s. record { file = scratch_of s.state s.bytes.items; room = s.room } };

    ghost invariant = { λ s. vec_len s.bytes + s.room ≤ vec_capacity s.bytes };
}

impl MemScratch {
    /// Takes no memory.
    pub(crate) fn new(alloc: Global) -> MemScratch
        ensures { result ≡ record { file = Gone; room = 0 } }
    {
        MemScratch {
            bytes: Vec::new(alloc),
            state: ScratchState::Missing,
            room: 0,
        }
    }

    /// For how many bytes there is memory.
    pub(crate) fn room(&self) -> u64
        ensures { result ≡ self.now.room }
    {
        self.room
    }

    /// Takes the memory for `len` bytes, where it is not there.
    pub(crate) fn make_room(&mut self, len: u64) -> Result<(), AllocError>
        ensures ok { OnOk result (self.new ≡ record self.old { room = max self.old.room len }) }
        ensures err { OnErr result (self.new ≡ self.old) }
    {
        self.bytes.reserve(len as usize)?;
        self.room = self.room.max(len);
        Ok(())
    }

    /// Counts on memory for so many bytes alone.
    pub(crate) fn lower_room(&mut self, room: u64)
        requires { room ≤ self.old.room }
        ensures { self.new ≡ record self.old { room = room } }
    {
        self.room = room;
    }

    pub(crate) fn create(&mut self)
        ensures { self.new ≡ record self.old { file = Unsynced [] } }
    {
        self.bytes.clear();
        self.state = ScratchState::Written;
    }

    pub(crate) fn append(&mut self, piece: &[u8])
        requires room { length piece.now ≤ self.old.room }
        requires there { IsThere self.old.file }
        ensures { self.new ≡ record { file = Unsynced (scratch_bytes self.old.file ++ piece.now); room = self.old.room - length piece.now } }
    {
        let _ = self.bytes.extend_from_slice(piece);
        self.state = ScratchState::Written;
        self.room -= piece.len() as u64;
    }

    pub(crate) fn sync(&mut self)
        requires { IsThere self.old.file }
        ensures { self.new ≡ record self.old { file = Synced (scratch_bytes self.old.file) } }
    {
        self.state = ScratchState::OnDisk;
    }

    /// Loses the file, and keeps its memory.
    pub(crate) fn lose(&mut self)
        ensures { self.new ≡ record self.old { file = Gone } }
    {
        self.state = ScratchState::Missing;
    }

    pub(crate) fn is_on_disk(&self) -> bool
        ensures { result ≡ is_on_disk self.now.file }
    {
        match self.state {
            ScratchState::OnDisk => true,
            ScratchState::Missing | ScratchState::Written => false,
        }
    }

    /// Gives the file away, and its memory with it.
    pub(crate) fn take(&mut self, alloc: Global) -> FileBytes
        requires { IsThere self.old.file }
        ensures bytes { result ≡ scratch_bytes self.old.file }
        ensures after { self.new ≡ record { file = Gone; room = 0 } }
    {
        self.state = ScratchState::Missing;
        self.room = 0;
        FileBytes::new(mem::replace(&mut self.bytes, Vec::new(alloc)))
    }
}
