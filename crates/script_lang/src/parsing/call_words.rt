//! The words behind a client's name.
ghost use Rattle.std.specs.Prelude.{ℕ, List, ◌∷◌, codes};
ghost use Rattle.script_words.specs.Words.{texts_at};
ghost use Rattle.script_lang.specs.CallWords.{ReadsCall};

use crate::{Act, Draft, ScriptFault};
use script_words::edit_of;
use std::alloc::Global;
use store_traits::NodeId;

/// What the words call for: `update EDIT`, `read`, or `restart NODE`.
pub(crate) fn call_of(alloc: Global, draft: &Draft, behind: &[&str]) -> Result<Act, ScriptFault>
    ensures { ReadsCall draft.now.nodes (texts_at behind.now) result }
{
    match behind {
        ["update", words @ ..] => update_of(alloc, words),
        ["restart", words @ ..] => restart_of(draft, words),
        ["read"] => Ok(Act::Read),
        ["read", ..] => Err(ScriptFault::BadValue),
        _ => Err(ScriptFault::UnknownWord),
    }
}

/// The update by the edit that the words behind `update` are.
fn update_of(alloc: Global, words: &[&str]) -> Result<Act, ScriptFault>
    ensures { (nodes : List (List ℕ)) → ReadsCall nodes (codes "update" ∷ texts_at words.now) result }
{
    Ok(Act::Update(edit_of(alloc, words)?))
}

/// The restart of the node that the words behind `restart` name.
fn restart_of(draft: &Draft, words: &[&str]) -> Result<Act, ScriptFault>
    ensures { ReadsCall draft.now.nodes (codes "restart" ∷ texts_at words.now) result }
{
    let [name] = words else {
        return Err(ScriptFault::BadValue);
    };
    let Some(node) = draft.nodes.find(name) else {
        return Err(ScriptFault::UnknownName);
    };
    Ok(Act::Restart(NodeId(node)))
}
