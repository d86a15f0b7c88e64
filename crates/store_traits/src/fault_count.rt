ghost use Rattle.std.specs.Prelude.{◌≡◌, ◌≤◌, ◌-◌, ◌^◌, ℕ, if◌then◌else◌, is_err};
ghost use Rattle.std.specs.Result.{result_ok};
ghost use Rattle.store_traits.specs.Faults.{Counts, one_more};

use crate::Failed;
use std::io;
use std::marker::Model;

/// A device's count of faults, which stays at 2^64 - 1 once it is there. Clauses see the number.
#[derive(Debug, Drop)]
pub struct FaultCount {
    count: u64,
}

impl Model for FaultCount {
    ghost Value = { ℕ };

    ghost view = { λ f. f.count };

    ghost invariant = { λ f. f.count ≤ 2 ^ 64 - 1 };
}

impl FaultCount {
    /// No fault yet.
    pub fn new() -> FaultCount
        ensures { result ≡ 0 }
    {
        FaultCount { count: 0 }
    }

    pub fn get(&self) -> u64
        ensures { result ≡ self.now }
    {
        self.count
    }

    /// Counts a call, which is one fault more where it failed.
    pub fn count(&mut self, has_failed: bool)
        ensures count { self.new ≡ (if has_failed then one_more self.old else self.old) }
        ensures counts { Counts has_failed self.old self.new }
        ensures fits { self.new ≤ 2 ^ 64 - 1 }
    {
        if has_failed {
            self.count = self.count.saturating_add(1);
        }
    }

    /// Counts a call of the system, whose error is a fault of the device.
    pub fn answer<T: Drop>(&mut self, outcome: io::Result<T>) -> Result<T, Failed>
        ensures value { result_ok result ≡ result_ok outcome }
        ensures count { self.new ≡ (if is_err result then one_more self.old else self.old) }
        ensures counts { Counts (is_err result) self.old self.new }
        ensures fits { self.new ≤ 2 ^ 64 - 1 }
    {
        self.count(outcome.is_err());
        match outcome {
            Ok(value) => Ok(value),
            Err(_) => Err(Failed),
        }
    }
}
