//! Which words are a command, and what they ask for. The rule on the name, on `--` and on words that begin with `-`
//! stands here; what is left is read with `clap`.
ghost use Rattle.std.specs.Prelude.{◌↔◌, IfOk, IfSome, IfNone, IsTrue};
ghost use Rattle.command_words.specs.Command.{Asks, AsksNothing, texts};
ghost use Rattle.command_words.specs.Line.{MayFollow};

mod dashes;
mod line;
mod rows;

use crate::command::Command;
use dashes::{line_of, parted};
use line::read;
use std::alloc::{AllocError, Global};

/// What the words ask for, if they are a command.
pub fn asked(alloc: Global, words: &[String]) -> Result<Option<Command>, AllocError>
    ensures some { IfOk result (λ r. IfSome r (Asks (texts words.now))) }
    ensures none { IfOk result (λ r. IfNone r (AsksNothing (texts words.now))) }
{
    let [name, behind @ ..] = words else {
        return Ok(None);
    };
    if !may_follow(name.as_str(), behind) {
        return Ok(None);
    }
    let Some((before, after)) = parted(behind) else {
        return Ok(None);
    };
    let line = line_of(alloc, name.as_str(), before, after)?;
    read(alloc, line.as_slice())
}

/// Whether the word names a command behind which these words may stand.
fn may_follow(name: &str, behind: &[String]) -> bool
    ensures { IsTrue result ↔ MayFollow name.now (texts behind.now) }
{
    match name {
        "set" | "get" | "remove" => true,
        "show" | "replay" => behind.is_empty(),
        _ => false,
    }
}
