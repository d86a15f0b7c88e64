ghost use Rattle.std.specs.Prelude.{◌≡◌, ◌≤◌, ◌<◌, ◌-◌, ◌^◌, [], true, vec_len, vec_capacity, is_err, IfOk};
ghost use Rattle.store_traits.specs.Faults.{Counts};
ghost use Rattle.byte_io.specs.Memory.{MemSinkSeen, WritesMemory, fresh_plan};
ghost use Rattle.byte_io.specs.Sink.{Writes};

use crate::Sink;
use crate::fault_plan::FaultPlan;
use std::alloc::{AllocError, Global};
use std::marker::Model;
use store_traits::Failed;

/// Room in memory, to which some writes fail.
#[derive(Drop)]
pub struct MemSink {
    held: Vec<u8>,
    room: usize,
    plan: FaultPlan,
}

impl Model for MemSink {
    ghost Value = { MemSinkSeen };

    ghost view = { λ s. record { held = s.held.items; room = s.room; plan = s.plan } };

    ghost invariant = { λ s. (vec_len s.held ≤ s.room) × (s.room ≤ vec_capacity s.held) };
}

impl MemSink {
    /// Takes memory for `room` bytes at once. The numbers of the writes that fail count from 1; a write
    /// fails too once the room is used up.
    pub fn new(alloc: Global, room: u64, failing: Vec<u32>) -> Result<MemSink, AllocError>
        requires { room < 2 ^ 63 }
        ensures { IfOk result (λ sink. sink ≡ record { held = []; room = room; plan = fresh_plan failing.items }) }
    {
        let room = room as usize;
        Ok(MemSink {
            held: Vec::with_capacity(alloc, room)?,
            room,
            plan: FaultPlan::new(failing),
        })
    }

    /// The bytes that were written.
    pub fn held(&self) -> &[u8]
        ensures { result.now ≡ self.now.held }
    {
        &self.held
    }
}

impl Sink for MemSink {
    ghost told = { true };

    ghost held = { λ s. s.held };

    ghost count = { λ s. s.plan.faults };

    fn write(&mut self, piece: &[u8]) -> Result<usize, Failed>
        ensures taken { Writes true self.old.held piece.now result self.new.held }
        ensures memory { WritesMemory piece.now self.old result self.new }
        ensures faults { Counts (is_err result) self.old.plan.faults self.new.plan.faults }
        ensures fits { self.new.plan.faults ≤ 2 ^ 64 - 1 }
    {
        let len = piece.len().min(self.room - self.held.len());
        if self.plan.fails(len == 0 && !piece.is_empty()) {
            return Err(Failed);
        }
        // The room was taken at the start, so this needs no memory.
        self.held.extend_from_slice(&piece[..len]).unwrap();
        Ok(len)
    }
}
