ghost use Rattle.std.specs.Prelude.{◌≡◌, ◌≤◌, ◌<◌, ◌^◌, ◌+◌, IsTrue, length, vec_len, take, is_ok};
ghost use Rattle.store_traits.specs.Faults.{Counts};
ghost use Rattle.byte_io.specs.ReadAll.{ReadsAll, Gathers, is_read_fault};
ghost use Rattle.byte_io.specs.Seen.{source_seen};

use crate::{ReadAllError, Source};
use std::alloc::Global;
use store_traits::FileBytes;

/// How many bytes one read takes at the most.
const PIECE_LEN: usize = 4096;

/// Reads to the end, where that comes within `limit` bytes.
pub fn read_all<S: Source>(
    alloc: Global,
    source: &mut S,
    limit: u64,
) -> Result<FileBytes, ReadAllError>
    requires { limit < 2 ^ 63 }
    ensures read { ReadsAll limit (source_seen S.Source source.old) result (source_seen S.Source source.new) }
    ensures faults { Counts (is_read_fault result) (S.count source.old) (S.count source.new) }
{
    let mut bytes = Vec::new(alloc);
    loop {
        let wanted = limit + 1 - bytes.len() as u64;
        let taken = read_piece(source, &mut bytes, wanted)?;
        if taken == 0 {
            return Ok(FileBytes::new(bytes));
        }
        if bytes.len() as u64 > limit {
            return Err(ReadAllError::TooLong { limit });
        }
    }
}

/// Takes at most so many bytes to the end of what was taken before, and says how many.
fn read_piece<S: Source>(
    source: &mut S,
    bytes: &mut Vec<u8>,
    wanted: u64,
) -> Result<usize, ReadAllError>
    requires { 0 < wanted }
    ensures gathered { Gathers wanted bytes.old.items (source_seen S.Source source.old) result bytes.new.items (source_seen S.Source source.new) }
    ensures faults { Counts (is_read_fault result) (S.count source.old) (S.count source.new) }
{
    let mut buffer = [0u8; PIECE_LEN];
    let room = wanted.min(PIECE_LEN as u64) as usize;
    let Ok(taken) = source.read(&mut buffer[..room]) else {
        return Err(ReadAllError::ReadFault);
    };
    if bytes.extend_from_slice(&buffer[..taken]).is_err() {
        return Err(ReadAllError::NoMemory);
    }
    Ok(taken)
}
