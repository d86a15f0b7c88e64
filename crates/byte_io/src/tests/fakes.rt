//! A reader and a writer that behave as the system's may.
use std::io::{self, ErrorKind, Read, Write};

/// It is interrupted first, then gives two bytes, and then ends or is broken.
#[derive(Drop)]
pub struct Halting {
    calls: u8,
    is_broken: bool,
}

impl Halting {
    pub fn new(is_broken: bool) -> Halting {
        Halting {
            calls: 0,
            is_broken,
        }
    }
}

impl Read for Halting {
    fn read(&mut self, buf: &mut [u8]) -> io::Result<usize> {
        self.calls = self.calls.saturating_add(1);
        match self.calls {
            1 => Err(ErrorKind::Interrupted.into()),
            2 => Ok(buf.len().min(2)),
            _ if self.is_broken => Err(ErrorKind::Other.into()),
            _ => Ok(0),
        }
    }
}

/// It takes nothing.
#[derive(Drop)]
pub struct Stubborn;

impl Write for Stubborn {
    fn write(&mut self, _buf: &[u8]) -> io::Result<usize> {
        Ok(0)
    }

    fn flush(&mut self) -> io::Result<()> {
        Ok(())
    }
}
