ghost use Rattle.std.specs.Prelude.{◌≡◌, ◌≤◌, ◌-◌, ◌^◌, true, length, is_err};
ghost use Rattle.store_traits.specs.Faults.{Counts};
ghost use Rattle.byte_io.specs.Memory.{MemSourceSeen, ReadsMemory, fresh_plan};
ghost use Rattle.byte_io.specs.Source.{Reads};

use crate::Source;
use crate::fault_plan::FaultPlan;
use crate::unread::Unread;
use std::marker::Model;
use store_traits::{Failed, FileBytes};

/// Bytes in memory, of which some reads fail.
#[derive(Drop)]
pub struct MemSource {
    unread: Unread,
    plan: FaultPlan,
}

impl Model for MemSource {
    ghost Value = { MemSourceSeen };

    ghost view = { λ s. record { left = s.unread; plan = s.plan } };
}

impl MemSource {
    /// The numbers of the reads that fail count from 1. It takes no memory.
    pub fn new(bytes: FileBytes, failing: Vec<u32>) -> MemSource
        ensures { result ≡ record { left = bytes; plan = fresh_plan failing.items } }
    {
        MemSource {
            unread: Unread::new(bytes),
            plan: FaultPlan::new(failing),
        }
    }
}

impl Source for MemSource {
    ghost told = { true };

    ghost left = { λ s. s.left };

    ghost count = { λ s. s.plan.faults };

    fn read(&mut self, into: &mut [u8]) -> Result<usize, Failed>
        ensures taken { Reads true self.old.left (length into.old) result into.new self.new.left }
        ensures memory { ReadsMemory (length into.old) self.old result self.new }
        ensures faults { Counts (is_err result) self.old.plan.faults self.new.plan.faults }
        ensures fits { self.new.plan.faults ≤ 2 ^ 64 - 1 }
    {
        if self.plan.fails(false) {
            return Err(Failed);
        }
        Ok(self.unread.read(into))
    }
}
