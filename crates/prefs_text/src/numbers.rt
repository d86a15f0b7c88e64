ghost use Rattle.std.specs.Prelude.{◌≡◌, ◌++◌, decimal, string_bytes, OnOk};
ghost use Rattle.prefs_text.specs.AnswerText.{numbered};

use itoa::Buffer;
use std::alloc::AllocError;

/// Appends the number in decimal.
pub(crate) fn push_number(out: &mut String, number: u64) -> Result<(), AllocError>
    ensures { OnOk result (string_bytes out.new ≡ string_bytes out.old ++ decimal number) }
{
    out.push_str(Buffer::new().format(number))
}

/// Appends the word, a space, and the number.
pub fn push_numbered(out: &mut String, word: &str, number: u64) -> Result<(), AllocError>
    ensures { OnOk result (string_bytes out.new ≡ string_bytes out.old ++ numbered word.now number) }
{
    out.push_str(word)?;
    out.push_str(" ")?;
    push_number(out, number)
}
