//! What comes of a case.
use crate::case::Case;
use anyhow::Result;
use byte_io::MemSink;
use folder_disk::MemFolder;
use prefs_tool::run_tool;
use std::alloc::Global;

/// More than any case prints.
const ROOM: u64 = 1 << 20;

/// The status, main after the command, and the output.
pub fn outcome_of(alloc: Global, case: &Case) -> Result<String> {
    let mut sink = MemSink::new(alloc, ROOM, Vec::new(alloc))?;
    let mut folder = case.folder(alloc)?;
    let mut source = case.source(alloc)?;
    let words = case.words.as_slice();
    let status = run_tool(alloc, words, &mut source, &mut sink, &mut folder).code();
    let main = main_text(alloc, case, &folder)?;
    let output = quoted(alloc, sink.held())?;
    Ok(format!(in alloc; "status {status}, main {main}, output {output}")?)
}

/// Main's bytes in hexadecimal digits, or a word for them.
fn main_text(alloc: Global, case: &Case, folder: &MemFolder) -> Result<String> {
    let digits = match folder.main() {
        None => None,
        Some(bytes) => Some(hex::encode(alloc, bytes)?),
    };
    if digits == case.main_hex {
        return Ok(String::from_str(alloc, "as before")?);
    }
    match digits {
        None => Ok(String::from_str(alloc, "absent")?),
        Some(digits) if digits.is_empty() => Ok(String::from_str(alloc, "empty")?),
        Some(digits) => Ok(digits),
    }
}

/// The output as a JSON string.
fn quoted(alloc: Global, output: &[u8]) -> Result<String> {
    Ok(serde_json::to_string(alloc, &std::str::from_utf8(output)?)?)
}
