//! The lines that have nodes die.
ghost use Rattle.std.specs.Prelude.{◌≡◌, true, IfSome, IfNone};
ghost use Rattle.script_words.specs.Words.{texts_at};
ghost use Rattle.script_lang.specs.DeathSteps.{can_die_at, step_text, IsStepWord};
ghost use Rattle.script_lang.specs.Draft.{HasHomes};
ghost use Rattle.script_lang.specs.Reading.{ReadsRow};
ghost use Rattle.script_lang.specs.Rows.{keyword};

use crate::{Draft, Line, LineWord, ScriptFault};
use script_words::number_of;
use shelf::PlannedDeath;
use store_traits::{CallId, ClientId, Step};

/// The greatest number of a call.
const MAX_CALL: u64 = 4_294_967_295;

/// `die CLIENT N STEP`
pub(crate) fn read_die(draft: &Draft, behind: &[&str]) -> Result<Line, ScriptFault>
    requires { HasHomes draft.now }
    ensures { ReadsRow draft.now (keyword LineWord.Die (texts_at behind.now)) result }
{
    let [_, _, step, ..] = behind else {
        return Err(ScriptFault::BadValue);
    };
    let Some(step) = step_of(step) else {
        return Err(ScriptFault::UnknownWord);
    };
    let [name, word, _] = behind else {
        return Err(ScriptFault::BadValue);
    };
    let Some(number) = number_of(word, 1, MAX_CALL) else {
        return Err(ScriptFault::BadValue);
    };
    let Some(client) = draft.clients.find(name) else {
        return Err(ScriptFault::UnknownName);
    };
    if draft.bars_faults() {
        return Err(ScriptFault::WrongPlace);
    }
    let call = CallId {
        node: draft.homes.as_slice()[client as usize],
        client: ClientId(client),
        number: number as u32,
    };
    Ok(Line::Die(PlannedDeath { call, step }))
}

/// The step that is spelled so, if a node can die before it.
fn step_of(word: &str) -> Option<Step>
    ensures some { IfSome result (λ step. (word.now ≡ step_text step) × (can_die_at step ≡ true)) }
    ensures none { IfNone result (¬ IsStepWord word.now) }
{
    match word {
        "I1" => Some(Step::I1),
        "I2" => Some(Step::I2),
        "I3" => Some(Step::I3),
        "I4" => Some(Step::I4),
        "I5" => Some(Step::I5),
        "I6" => Some(Step::I6),
        "U1" => Some(Step::U1),
        "U2" => Some(Step::U2),
        "U3" => Some(Step::U3),
        "U4" => Some(Step::U4),
        "U5" => Some(Step::U5),
        "U6" => Some(Step::U6),
        "U7" => Some(Step::U7),
        "U8" => Some(Step::U8),
        "V2" => Some(Step::V2),
        "V3" => Some(Step::V3),
        "P1" => Some(Step::P1),
        "P2" => Some(Step::P2),
        _ => None,
    }
}
