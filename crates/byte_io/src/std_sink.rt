ghost use Rattle.std.specs.Prelude.{◌≡◌, ◌≤◌, ◌<◌, ℕ, [], false, length, IfOk};

use crate::Sink;
use std::io::{self, Write};
use std::marker::Model;
use store_traits::{Failed, FaultCount};

/// A real writer. What it holds is not told. Clauses see the count of faults.
#[derive(Drop)]
pub struct StdSink<W: Write + Drop> {
    writer: W,
    faults: FaultCount,
}

impl<W: Write + Drop> Model for StdSink<W> {
    ghost Value = { ℕ };

    ghost view = { λ s. s.faults };
}

impl<W: Write + Drop> StdSink<W> {
    /// Writes nothing yet.
    pub fn new(writer: W) -> StdSink<W>
        ensures { result ≡ 0 }
    {
        StdSink {
            writer,
            faults: FaultCount::new(),
        }
    }
}

impl<W: Write + Drop> Sink for StdSink<W> {
    ghost told = { false };

    ghost held = { λ _. [] };

    ghost count = { λ faults. faults };

    fn write(&mut self, piece: &[u8]) -> Result<usize, Failed> {
        let outcome = write_some(&mut self.writer, piece);
        self.faults.answer(outcome)
    }
}

/// A write that a signal interrupts is made again. A writer that takes nothing of a piece has failed.
fn write_some<W: Write>(writer: &mut W, piece: &[u8]) -> io::Result<usize>
    ensures bound { IfOk result (λ taken. taken ≤ length piece.now) }
    ensures some { IfOk result (λ taken. 0 < length piece.now → 0 < taken) }
{
    for _ in 0..u64::MAX {
        match writer.write(piece) {
            Ok(0) if !piece.is_empty() => return Err(io::ErrorKind::WriteZero.into()),
            Err(error) if error.kind() == io::ErrorKind::Interrupted => {}
            outcome => return outcome,
        }
    }
    Err(io::ErrorKind::Interrupted.into())
}
