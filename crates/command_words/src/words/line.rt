//! How `clap` reads the line of a command.
ghost use Rattle.std.specs.Prelude.{◌≡◌, IfOk, IfErr, IfSome, IfNone};
ghost use Rattle.clap.specs.Words.{kind_of};
ghost use Rattle.command_words.specs.Line.{IsLine, LineAsks, texts_at};
ghost use Rattle.command_words.specs.Matches.{HasWords, TakesAny};

use super::rows::row;
use crate::command::Command;
use clap::error::ErrorKind;
use clap::{Arg, ArgMatches};
use std::alloc::{AllocError, Global};

/// What the line asks for, if the words in it fit.
pub(crate) fn read(alloc: Global, line: &[&str]) -> Result<Option<Command>, AllocError>
    requires { IsLine (texts_at line.now) }
    ensures some { IfOk result (λ r. IfSome r (LineAsks (texts_at line.now))) }
    ensures none { IfOk result (λ r. IfNone r ((command : Command) → ¬ LineAsks (texts_at line.now) command)) }
{
    let Ok(matches) = matches_of(alloc, line) else {
        return Err(AllocError);
    };
    match matches.subcommand() {
        Some((name, found)) => row(alloc, name, found.get_strs("words").unwrap_or(&[])),
        None => Ok(None),
    }
}

/// The name and the words as `clap` finds them. It refuses no line, so it fails only for want of memory.
fn matches_of<'a, 'b>(alloc: Global, line: &'a [&'b str]) -> Result<ArgMatches<'a>, clap::Error>
    requires { IsLine (texts_at line.now) }
    ensures ok { IfOk result (HasWords (texts_at line.entry.now)) }
    ensures err { IfErr result (λ e. kind_of e ≡ ErrorKind.OutOfMemory) }
{
    let set = with_words(alloc, "set")?;
    let get = with_words(alloc, "get")?;
    let remove = with_words(alloc, "remove")?;
    clap::Command::new(alloc, "prefs")
        .no_binary_name(true)
        .disable_help_flag(true)
        .disable_help_subcommand(true)
        .subcommand(set)?
        .subcommand(get)?
        .subcommand(remove)?
        .subcommand(clap::Command::new(alloc, "show"))?
        .subcommand(clap::Command::new(alloc, "replay"))?
        .try_get_matches_from(line)
}

/// A command of this name that takes any number of words.
fn with_words<'a>(alloc: Global, name: &'a str) -> Result<clap::Command<'a>, AllocError>
    ensures { IfOk result (TakesAny name.entry.now) }
{
    clap::Command::new(alloc, name).arg(Arg::new(alloc, "words").num_args(..))
}
