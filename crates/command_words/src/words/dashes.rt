//! The first `--` among the words behind a command's name.
ghost use Rattle.std.specs.Prelude.{◌≡◌, ◌∷◌, ◌++◌, ℕ, List, codes, IfOk, IfSome, IfNone};
ghost use Rattle.command_words.specs.Command.{texts};
ghost use Rattle.command_words.specs.Line.{texts_at};
ghost use Rattle.command_words.specs.Words.{IsParted};

use std::alloc::{AllocError, Global};

/// The words before and behind the first `--`, or all of them and none. No word before it may begin with `-`.
pub(crate) fn parted(words: &[String]) -> Option<(&[String], &[String])>
    ensures some { IfSome result (λ parts. IsParted (texts words.now) (texts parts.0.now) (texts parts.1.now)) }
    ensures none { IfNone result ((before after : List (List ℕ)) → ¬ IsParted (texts words.now) before after) }
{
    for (place, word) in words.iter().enumerate() {
        if word.as_str() == "--" {
            return Some((&words[..place], &words[place + 1..]));
        }
        if word.as_str().starts_with('-') {
            return None;
        }
    }
    Some((words, &[]))
}

/// The name, `--` and the words: so every word is given to the command, whatever it begins with.
pub(crate) fn line_of<'a>(
    alloc: Global,
    name: &'a str,
    before: &'a [String],
    after: &'a [String],
) -> Result<Vec<&'a str>, AllocError>
    ensures { IfOk result (λ line. texts_at line.items
        ≡ name.entry.now ∷ codes "--" ∷ (texts before.entry.now ++ texts after.entry.now)) }
{
    let mut line = vec![in alloc; name, "--"]?;
    for word in before {
        line.push(word.as_str())?;
    }
    for word in after {
        line.push(word.as_str())?;
    }
    Ok(line)
}
