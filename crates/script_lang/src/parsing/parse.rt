ghost use Rattle.std.specs.Prelude.{IfOk, IfErr};
ghost use Rattle.script_lang.specs.Draft.{HasHomes};
ghost use Rattle.script_lang.specs.Keeps.{Keeps};
ghost use Rattle.script_lang.specs.Meaning.{Means, IsRefusalOf};
ghost use Rattle.script_lang.specs.Reading.{GoesOn, StopsAt};

use super::lines::first_line;
use super::reading::read_line;
use crate::{Draft, Mode, Script, ScriptError, ScriptFault};
use std::alloc::Global;

/// The script that the bytes are, in time linear in their number.
pub fn parse_script(alloc: Global, bytes: &[u8], mode: Mode) -> Result<Script, ScriptError>
    ensures ok { IfOk result (Means mode bytes.now) }
    // It keeps what a script is to keep, so that it can be run.
    ensures keeps { IfOk result Keeps }
    ensures err { IfErr result (IsRefusalOf mode bytes.now) }
{
    let mut draft = Draft::new(alloc, mode);
    let mut number = 0;
    let mut rest = bytes;
    while !rest.is_empty() {
        let (line, behind) = first_line(rest);
        number += 1;
        draft = next_draft(alloc, draft, number, line)?;
        rest = behind;
    }
    let Ok(script) = draft.into_script(alloc) else {
        return Err(ScriptError {
            line: number,
            fault: ScriptFault::NoMemory,
        });
    };
    Ok(script)
}

/// The draft once the line with this number is read.
fn next_draft(alloc: Global, draft: Draft, number: u64, line: &[u8]) -> Result<Draft, ScriptError>
    requires { HasHomes draft }
    ensures ok { IfOk result (GoesOn draft number line.now) }
    ensures err { IfErr result (StopsAt draft number line.now) }
{
    let read = read_line(alloc, &draft, number, line);
    match read {
        Ok(said) => draft.with(alloc, said).map_err(|_| ScriptError {
            line: number,
            fault: ScriptFault::NoMemory,
        }),
        Err(fault) => Err(ScriptError {
            line: number,
            fault,
        }),
    }
}
