ghost use Rattle.std.specs.Prelude.{IfOk};
ghost use Rattle.script_words.specs.Words.{AreWords, texts_at};

use crate::place::Place;
use std::alloc::{AllocError, Global};

/// The words of a line, which has no end of its own: they are the line with its spaces taken away, but for those
/// within a quoted text or a list that begins a word. A line has at least one word, which may be empty.
pub fn line_words<'a>(alloc: Global, line: &'a str) -> Result<Vec<&'a str>, AllocError>
    ensures { IfOk result (λ words. AreWords (texts_at words.items) line.entry.now) }
{
    let mut words = Vec::new(alloc);
    let mut start = 0;
    let mut place = Place::Start;
    for (at, byte) in line.as_bytes().iter().enumerate() {
        if place.ends_at(*byte) {
            words.push(&line[start..at])?;
            start = at + 1;
            place = Place::Start;
        } else {
            place = place.after(*byte);
        }
    }
    words.push(&line[start..])?;
    Ok(words)
}
