ghost use Rattle.std.specs.Prelude.{◌≡◌, ◌≤◌, ℕ, [], false, length, IfOk};

use crate::Source;
use std::io::{self, Read};
use std::marker::Model;
use store_traits::{Failed, FaultCount};

/// A real reader. What it gives is not told. Clauses see the count of faults.
#[derive(Drop)]
pub struct StdSource<R: Read + Drop> {
    reader: R,
    faults: FaultCount,
}

impl<R: Read + Drop> Model for StdSource<R> {
    ghost Value = { ℕ };

    ghost view = { λ s. s.faults };
}

impl<R: Read + Drop> StdSource<R> {
    /// Reads nothing yet.
    pub fn new(reader: R) -> StdSource<R>
        ensures { result ≡ 0 }
    {
        StdSource {
            reader,
            faults: FaultCount::new(),
        }
    }
}

impl<R: Read + Drop> Source for StdSource<R> {
    ghost told = { false };

    ghost left = { λ _. [] };

    ghost count = { λ faults. faults };

    fn read(&mut self, into: &mut [u8]) -> Result<usize, Failed> {
        let outcome = read_some(&mut self.reader, into);
        self.faults.answer(outcome)
    }
}

/// A read that a signal interrupts is made again.
fn read_some<R: Read>(reader: &mut R, into: &mut [u8]) -> io::Result<usize>
    ensures { IfOk result (λ taken. taken ≤ length into.old) }
{
    for _ in 0..u64::MAX {
        match reader.read(into) {
            Err(error) if error.kind() == io::ErrorKind::Interrupted => {}
            outcome => return outcome,
        }
    }
    Err(io::ErrorKind::Interrupted.into())
}
