//! A command over devices in memory, and rows that tell what comes of it.
use byte_io::{MemSink, MemSource, Source};
use folder_disk::{FolderCall, FuseFolder, MainRead, MemFolder, Planned};
use prefs_tool::run_tool;
use std::alloc::{AllocError, Global};
use store_traits::FileBytes;

/// More than any test prints.
const ROOM: u64 = 1 << 20;

/// A folder in memory with a fuse.
pub type Fused = FuseFolder<MemFolder>;

/// A folder with this file. `failing` names the call that fails, the first of its kind, or a fuse, as `fuse 1`, or another
/// device.
pub fn folder_of(alloc: Global, main: MainRead, failing: &str) -> Option<Fused> {
    let planned = planned_of(alloc, failing)?;
    let folder = MemFolder::new(alloc, main, planned).ok()?;
    let fuse = match failing.strip_prefix("fuse ") {
        Some(number) => Some(number.parse().ok()?),
        None => None,
    };
    Some(FuseFolder::new(folder, fuse))
}

fn planned_of(alloc: Global, failing: &str) -> Option<Vec<Planned>> {
    let call = match failing {
        "read_main" => FolderCall::ReadMain,
        "create" => FolderCall::Create,
        "append" => FolderCall::Append,
        "sync_scratch" => FolderCall::SyncScratch,
        "rename" => FolderCall::Rename,
        "sync_folder" => FolderCall::SyncFolder,
        _ => return Some(Vec::new(alloc)),
    };
    vec![in alloc; Planned { call, number: 1 }].ok()
}

/// A sink. `failing` names the write that fails, as `write 1`, or another device.
pub fn sink_of(alloc: Global, failing: &str) -> Option<MemSink> {
    MemSink::new(alloc, ROOM, failing_calls(alloc, "write ", failing)?).ok()
}

/// A source of these bytes. `failing` names the read that fails, as `read 1`, or another device.
pub fn source_of(alloc: Global, bytes: &[u8], failing: &str) -> Option<MemSource> {
    let bytes = FileBytes::new(bytes.to_vec(alloc).ok()?);
    Some(MemSource::new(bytes, failing_calls(alloc, "read ", failing)?))
}

fn failing_calls(alloc: Global, kind: &str, failing: &str) -> Option<Vec<u32>> {
    match failing.strip_prefix(kind) {
        Some(number) => vec![in alloc; number.parse().ok()?].ok(),
        None => Some(Vec::new(alloc)),
    }
}

fn words_of(alloc: Global, line: &str) -> Result<Vec<String>, AllocError> {
    let mut words = Vec::new(alloc);
    for word in line.split(' ') {
        words.push(String::from_str(alloc, word)?)?;
    }
    Ok(words)
}

/// The status of the command with these words, which stand in one line.
pub fn status_of<S: Source>(
    alloc: Global,
    line: &str,
    source: &mut S,
    sink: &mut MemSink,
    folder: &mut Fused,
) -> Option<u8> {
    let words = words_of(alloc, line).ok()?;
    Some(run_tool(alloc, words.as_slice(), source, sink, folder).code())
}

/// The folder after a command without a source, where it has this status and prints this.
pub fn folder_after(
    alloc: Global,
    (failing, before, line): (&str, MainRead, &str),
    (status, printed): (&str, &str),
) -> Option<Fused> {
    let mut folder = folder_of(alloc, before, failing)?;
    let mut sink = sink_of(alloc, failing)?;
    let mut source = source_of(alloc, b"", "read 1")?;
    let found = status_of(alloc, line, &mut source, &mut sink, &mut folder)?;
    let is_as_told = status.parse() == Ok(found) && sink.held() == printed.as_bytes();
    is_as_told.then_some(folder)
}

/// The bytes of a file in hexadecimal digits; `none` is no file.
fn main_of(alloc: Global, digits: &str) -> Option<MainRead> {
    if digits == "none" {
        return Some(MainRead::Absent);
    }
    Some(MainRead::Bytes(FileBytes::new(hex::decode(alloc, digits).ok()?)))
}

fn is_main(alloc: Global, folder: &mut Fused, digits: &str) -> Option<bool> {
    match folder.inner().main() {
        Some(main) => Some(main == hex::decode(alloc, digits).ok()?.as_slice()),
        None => Some(digits == "none"),
    }
}

/// Whether that comes of a command which the row tells: what fails, the file before, the command, its status, what is
/// printed, and the file after.
pub fn holds(alloc: Global, row: &str) -> Option<bool> {
    let parts: Vec<&str> = row.split('|').collect(alloc).ok()?;
    let [failing, before, line, status, printed, after] = parts.as_slice() else {
        return None;
    };
    let before = main_of(alloc, before)?;
    let mut folder = folder_after(alloc, (failing, before, line), (status, printed))?;
    is_main(alloc, &mut folder, after)
}
