//! Files of many keys or of many bytes, and edits, up to their limits.
use crate::command::{folder_after, folder_of, sink_of, source_of, status_of};
use folder_disk::MainRead;
use std::alloc::{AllocError, Global};
use store_traits::FileBytes;

fn main_read(bytes: Vec<u8>) -> MainRead {
    MainRead::Bytes(FileBytes::new(bytes))
}

/// The file in which a thousand keys of four digits are 5, but that the key 0500 has this value.
fn thousand(alloc: Global, middle: char) -> Result<String, AllocError> {
    let mut file = String::new(alloc);
    for number in 0..1000 {
        let value = if number == 500 { middle } else { '\u{5}' };
        let entry = format!(in alloc; "\n\n\n\u{4}{number:04}\u{12}\u{2}\u{18}{value}")?;
        file.push_str(entry.as_str())?;
    }
    Ok(file)
}

fn thousand_fives(alloc: Global) -> Option<MainRead> {
    let file = thousand(alloc, '\u{5}').ok()?;
    Some(main_read(file.as_bytes().to_vec(alloc).ok()?))
}

fn is_one_set(alloc: Global) -> Option<bool> {
    let before = thousand_fives(alloc)?;
    let mut folder = folder_after(alloc, ("", before, "set 0500 int 6"), ("0", ""))?;
    let wanted = thousand(alloc, '\u{6}').ok()?;
    Some(folder.inner().main()? == wanted.as_bytes())
}

#[test]
fn one_of_a_thousand_keys_is_set(rt: HostRuntime) {
    assert_eq!(rt; is_one_set(rt.alloc()), Some(true));
}

/// Whether `show` of a thousand keys ends so and prints so many bytes, where this write fails.
fn shows(alloc: Global, failing: &str, status: u8, len: usize) -> Option<bool> {
    let mut folder = folder_of(alloc, thousand_fives(alloc)?, failing)?;
    let mut sink = sink_of(alloc, failing)?;
    let mut source = source_of(alloc, b"", "read 1")?;
    let found = status_of(alloc, "show", &mut source, &mut sink, &mut folder)?;
    Some(found == status && sink.held().len() == len)
}

#[test]
fn a_long_file_is_shown_in_pieces(rt: HostRuntime) {
    let alloc = rt.alloc();
    // A line has 13 bytes, and a piece is written from 4,096 on: 316 lines.
    assert_eq!(rt; shows(alloc, "write 1", 7, 0), Some(true));
    assert_eq!(rt; shows(alloc, "write 2", 7, 4108), Some(true));
    assert_eq!(rt; shows(alloc, "write 5", 0, 13000), Some(true));
}

/// The file in which `t` is a text of so many letters. Before these it has the bytes that `head` tells.
fn file_of_text(alloc: Global, head: &str, letters: &str) -> Option<MainRead> {
    let mut bytes = hex::decode(alloc, head).ok()?;
    let text = "x".repeat(alloc, letters.parse().ok()?).ok()?;
    bytes.extend_from_slice(text.as_bytes()).ok()?;
    Some(main_read(bytes))
}

/// The file's first bytes and the letters behind them, the command, its status and line, and how long main is then.
const MEBIBYTES: [&str; 4] = [
    "0af3ff3f0a017412ecff3f2ae8ff3f|1048552|set u bool true|0||1048576",
    "0af4ff3f0a017412edff3f2ae9ff3f|1048553|set u bool true|5|error: value too long 1048577\n|1048568",
    "0afdff3f0a017412f6ff3f2af2ff3f|1048562|show|4|error: too long 1048577\n|1048577",
    "0afdff3f0a017412f6ff3f2af2ff3f|1048562|remove t|4|error: too long 1048577\n|1048577",
];

fn leaves(alloc: Global, row: &str) -> Option<bool> {
    let parts: Vec<&str> = row.split('|').collect(alloc).ok()?;
    let [head, letters, line, status, printed, len] = parts.as_slice() else {
        return None;
    };
    let before = file_of_text(alloc, head, letters)?;
    let mut folder = folder_after(alloc, ("", before, line), (status, printed))?;
    Some(len.parse() == Ok(folder.inner().main()?.len()))
}

#[test]
fn a_file_may_have_a_mebibyte(rt: HostRuntime) {
    for row in &MEBIBYTES {
        assert_eq!(rt; leaves(rt.alloc(), row), Some(true), "{row}");
    }
}

/// Whether an edit with a text of so many letters ends so.
fn edits(alloc: Global, letters: usize, status: &str, printed: &str) -> Option<bool> {
    let text = "x".repeat(alloc, letters).ok()?;
    let line = format!(in alloc; "set t text {text}").ok()?;
    let asked = ("", MainRead::Absent, line.as_str());
    Some(folder_after(alloc, asked, (status, printed)).is_some())
}

#[test]
fn a_long_edit_is_refused(rt: HostRuntime) {
    let alloc = rt.alloc();
    assert_eq!(rt; edits(alloc, 65_519, "0", ""), Some(true));
    assert_eq!(rt; edits(alloc, 65_520, "5", "error: refused 4\n"), Some(true));
}
