//! The lines that declare nodes and clients.
ghost use Rattle.script_words.specs.Words.{texts_at};
ghost use Rattle.script_lang.specs.Reading.{ReadsRow};
ghost use Rattle.script_lang.specs.Rows.{keyword};

use crate::{Draft, Line, LineWord, ScriptFault};
use hist_journal::PrefName;
use script_words::is_name;
use std::alloc::Global;
use store_traits::NodeId;

/// How many nodes a script has at the most.
pub const MAX_NODES: usize = 16;

/// How many clients a script has at the most.
pub const MAX_CLIENTS: usize = 64;

/// `node NAME`
pub(crate) fn read_node(alloc: Global, draft: &Draft, behind: &[&str]) -> Result<Line, ScriptFault>
    ensures { ReadsRow draft.now (keyword LineWord.Node (texts_at behind.now)) result }
{
    let [name] = behind else {
        return Err(ScriptFault::BadValue);
    };
    if !is_name(name) {
        return Err(ScriptFault::BadValue);
    }
    if draft.is_taken(name) {
        return Err(ScriptFault::NameTaken);
    }
    if draft.nodes.len() >= MAX_NODES {
        return Err(ScriptFault::TooManyNames);
    }
    if draft.follows_other() {
        return Err(ScriptFault::WrongPlace);
    }
    let text = String::from_str(alloc, name)?;
    Ok(Line::Node(PrefName::new(text)))
}

/// `client NAME on NODE`
pub(crate) fn read_client(
    alloc: Global,
    draft: &Draft,
    behind: &[&str],
) -> Result<Line, ScriptFault>
    ensures { ReadsRow draft.now (keyword LineWord.Client (texts_at behind.now)) result }
{
    let [name, on, home] = behind else {
        return Err(ScriptFault::BadValue);
    };
    if !is_name(name) || *on != "on" {
        return Err(ScriptFault::BadValue);
    }
    let Some(home) = draft.nodes.find(home) else {
        return Err(ScriptFault::UnknownName);
    };
    if draft.is_taken(name) {
        return Err(ScriptFault::NameTaken);
    }
    if draft.clients.len() >= MAX_CLIENTS {
        return Err(ScriptFault::TooManyNames);
    }
    if draft.follows_other() {
        return Err(ScriptFault::WrongPlace);
    }
    let text = String::from_str(alloc, name)?;
    Ok(Line::Client(PrefName::new(text), NodeId(home)))
}
