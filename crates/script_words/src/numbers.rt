ghost use Rattle.std.specs.Prelude.{◌≤◌, ℕ, IfSome, IfNone};
ghost use Rattle.script_words.specs.Numbers.{IsNumberWithin};

use itoa::Buffer;

/// The number from `least` to `most` that the word is: `0`, or digits without a zero in front.
pub fn number_of(word: &str, least: u64, most: u64) -> Option<u64>
    ensures some { IfSome result (IsNumberWithin word.now least most) }
    ensures none { IfNone result ((n : ℕ) → ¬ IsNumberWithin word.now least most n) }
{
    let Ok(number) = word.parse::<u64>() else {
        return None;
    };
    let is_printed_so = Buffer::new().format(number) == word;
    if is_printed_so && least <= number && number <= most {
        Some(number)
    } else {
        None
    }
}
