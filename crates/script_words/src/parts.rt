ghost use Rattle.std.specs.Prelude.{◌≡◌, map, IfOk};
ghost use Rattle.script_words.specs.Words.{texts_at};
ghost use Rattle.script_words.specs.Parts.{parts_at, parts_of};

use std::alloc::{AllocError, Global};

/// The words, cut at each word `;`. There is at least one part, and a part may have no word.
pub(crate) fn parts_of<'a, 'b>(
    alloc: Global,
    words: &'a [&'b str],
) -> Result<Vec<&'a [&'b str]>, AllocError>
    ensures { IfOk result (λ parts. parts_at parts.items ≡ parts_of (texts_at words.entry.now)) }
{
    words.split(|word| *word == ";").collect(alloc)
}
