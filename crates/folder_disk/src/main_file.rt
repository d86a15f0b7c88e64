ghost use Rattle.std.specs.Prelude.{◌≡◌, ◌↔◌, false, IsOk, IfOk, IfErr, None};
ghost use Rattle.folder_disk.specs.MainRead.{ReadsMain, main_of, is_failed};

use crate::{MainRead, ReadMainError};
use std::alloc::Global;
use std::fs;
use std::fs::OpenFile;
use std::io::{ErrorKind, Read};
use std::rt::Files;
use store_traits::FileBytes;

/// Reads a real file. What it holds is not told.
pub(crate) fn read_path<R: Files>(
    rt: &R,
    path: &str,
    alloc: Global,
    limit: u64,
) -> Result<MainRead, ReadMainError>
    ensures { ReadsMain false limit None result }
{
    match fs::open(rt, path) {
        Ok(mut file) => read_file(&mut file, alloc, limit),
        Err(error) => read_nothing(error.kind()),
    }
}

/// Whether the device failed.
pub(crate) fn is_fault(read: &Result<MainRead, ReadMainError>) -> bool
    ensures { result ≡ is_failed read.now }
{
    match read {
        Err(ReadMainError::Failed) => true,
        Err(ReadMainError::TooLong { .. } | ReadMainError::NoMemory) | Ok(_) => false,
    }
}

// What it means that main was not opened: it is absent only where there is no such file. Were any
// other error taken for that, the settings would be overwritten.
fn read_nothing(kind: ErrorKind) -> Result<MainRead, ReadMainError>
    ensures absent { IsOk result ↔ (kind ≡ ErrorKind.NotFound) }
    ensures ok { IfOk result (λ read. main_of read ≡ None) }
    ensures err { IfErr result (λ error. error ≡ ReadMainError.Failed) }
{
    match kind {
        ErrorKind::NotFound => Ok(MainRead::Absent),
        _ => Err(ReadMainError::Failed),
    }
}

// The length is looked at first, so that a file that is too long takes no memory.
fn read_file<F: Read + OpenFile>(
    file: &mut F,
    alloc: Global,
    limit: u64,
) -> Result<MainRead, ReadMainError>
    ensures { ReadsMain false limit None result }
{
    let len = file_len(file)?;
    if len > limit {
        return Err(ReadMainError::TooLong { len });
    }
    let Ok(mut bytes) = vec![in alloc; 0u8; len as usize] else {
        return Err(ReadMainError::NoMemory);
    };
    match file.read_exact(&mut bytes) {
        Ok(()) => Ok(MainRead::Bytes(FileBytes::new(bytes))),
        Err(_) => Err(ReadMainError::Failed),
    }
}

// A directory, or whatever else is no file, has no length.
fn file_len<F: OpenFile>(file: &F) -> Result<u64, ReadMainError>
    ensures { IfErr result (λ error. error ≡ ReadMainError.Failed) }
{
    match file.metadata() {
        Ok(found) if found.is_file() => Ok(found.len()),
        _ => Err(ReadMainError::Failed),
    }
}
