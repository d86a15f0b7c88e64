ghost use Rattle.std.specs.Prelude.{◌≡◌, ◌++◌, string_bytes, OnOk};
ghost use Rattle.hist_journal.specs.View.{base_seen};
ghost use Rattle.script_lang.specs.declared.transcripts.file_seen.FileSeen.TheVariants.{Bytes};
ghost use Rattle.script_lang.specs.TranscriptText.{base_text, file_text, head_lines, lines_text};

use crate::FileSeen;
use hist_journal::Base;
use prefs_model::PrefMap;
use prefs_text::{push_map, push_numbered};
use std::alloc::AllocError;

/// Appends the lines with which a session begins: its number and its base.
pub(crate) fn push_head(
    out: &mut String,
    number: u64,
    base: &Base<PrefMap>,
) -> Result<(), AllocError>
    ensures { OnOk result (string_bytes out.new ≡ string_bytes out.old ++ lines_text (head_lines number (base_seen base.now))) }
{
    push_numbered(out, "session", number)?;
    out.push_str("\n")?;
    push_base(out, base)?;
    out.push_str("\n")
}

fn push_base(out: &mut String, base: &Base<PrefMap>) -> Result<(), AllocError>
    ensures { OnOk result (string_bytes out.new ≡ string_bytes out.old ++ base_text (base_seen base.now)) }
{
    match base {
        Base::Held(map) => {
            out.push_str("base ")?;
            push_map(out, map)
        }
        Base::Corrupt => out.push_str("base corrupt"),
        Base::TooLong(len) => push_numbered(out, "base toolong", *len),
    }
}

/// Appends what main is, without the end of the line.
pub(crate) fn push_file(out: &mut String, file: &FileSeen) -> Result<(), AllocError>
    ensures { OnOk result (string_bytes out.new ≡ string_bytes out.old ++ file_text file.now) }
{
    match file {
        FileSeen::Absent => out.push_str("file none"),
        FileSeen::Bytes(bytes) => push_bytes(out, bytes.as_slice()),
        FileSeen::TooLong(len) => push_numbered(out, "file toolong", *len),
    }
}

// No bytes are told by a word, others in lower-case hexadecimal.
fn push_bytes(out: &mut String, bytes: &[u8]) -> Result<(), AllocError>
    ensures { OnOk result (string_bytes out.new ≡ string_bytes out.old ++ file_text (Bytes bytes.now)) }
{
    if bytes.is_empty() {
        return out.push_str("file empty");
    }
    let digits = hex::encode(*out.allocator(), bytes)?;
    out.push_str("file ")?;
    out.push_str(digits.as_str())
}
