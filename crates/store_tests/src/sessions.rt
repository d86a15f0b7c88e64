//! Sessions of a node with settings over a folder in memory, and what is seen of them.
ghost use Rattle.std.specs.Bool.{OnTrue};
ghost use Rattle.std.specs.Prelude.{IfSome, IsTrue};
ghost use Rattle.hist_journal.specs.View.{base_seen};
ghost use Rattle.shelf.specs.Base.{ReadsAs};
ghost use Rattle.shelf.specs.ShelfSeen.{shelf_seen};
ghost use Rattle.store_tests.specs.SingleUpdate.{IsFresh};

use folder_disk::{MainRead, MemFolder, Planned};
use hist_journal::{Base, Bounds, Kind};
use prefs_edit::{Edit, EditStep};
use prefs_model::{PrefKey, PrefMap, PrefValue};
use prefs_proto::PrefsCodec;
use replay_run::PrefsParts;
use shelf::{DeathPlan, Parts, PlannedDeath, Setup, Shelf, ValueOf};
use std::alloc::{AllocError, Global};
use std::sync::Arc;
use store_traits::{CallId, ClientId, Codec, Decoded, FileBytes, NodeId, Step};

pub type Prefs = PrefsParts<MemFolder>;

/// More entries than any test makes.
const MANY: u64 = 100;

/// The first call of a client.
pub const A: CallId = CallId {
    node: NodeId(0),
    client: ClientId(0),
    number: 1,
};

/// The call behind that.
pub const A_NEXT: CallId = CallId {
    node: NodeId(0),
    client: ClientId(0),
    number: 2,
};

/// The calls of a client of another node, one after the other.
pub const B: CallId = CallId {
    node: NodeId(1),
    client: ClientId(1),
    number: 1,
};

pub const B_NEXT: CallId = CallId {
    node: NodeId(1),
    client: ClientId(1),
    number: 2,
};

pub const B_LAST: CallId = CallId {
    node: NodeId(1),
    client: ClientId(1),
    number: 3,
};

/// A session of one node in which these deaths are planned, over a folder whose main reads as this base.
fn session<P: Parts>(
    alloc: Global,
    codec: P::C,
    folder: P::F,
    base: Base<ValueOf<P>>,
    entries: u64,
    deaths: Vec<PlannedDeath>,
) -> Option<Shelf<P>>
    requires base { IsTrue P.F.told → ReadsAs (P.C.reads codec) (P.C.default_of codec) 1048576 (P.F.contents folder).main (base_seen base) }
    ensures { IfSome result (λ shelf. IsFresh A (shelf_seen shelf)) }
{
    let bounds = Bounds {
        entries,
        weight: 1000,
    };
    let setup = Setup {
        codec,
        limit: 1_048_576,
        bounds,
        deaths: DeathPlan::new(alloc, deaths).ok()?,
    };
    let mut shelf = Shelf::new(alloc, setup, base, folder);
    let Ok(()) = shelf.add_node(alloc, A.node) else {
        return None;
    };
    Some(shelf)
}

/// A second node joins a session in which nothing has happened.
pub fn join<P: Parts>(alloc: Global, shelf: &mut Shelf<P>) -> bool
    requires { IsFresh A (shelf_seen shelf.old) }
    ensures first { OnTrue result (IsFresh A (shelf_seen shelf.new)) }
    ensures second { OnTrue result (IsFresh B (shelf_seen shelf.new)) }
{
    shelf.add_node(alloc, B.node).is_ok()
}

/// A session without a file, in which these calls of the folder fail.
pub fn without_file(alloc: Global, failing: Vec<Planned>) -> Option<Shelf<Prefs>>
    ensures { IfSome result (λ shelf. IsFresh A (shelf_seen shelf)) }
{
    planned(alloc, failing, MANY, Vec::new(alloc))
}

/// A session without a file, in which so many entries make a full history.
pub fn of_length(alloc: Global, entries: u64) -> Option<Shelf<Prefs>>
    ensures { IfSome result (λ shelf. IsFresh A (shelf_seen shelf)) }
{
    planned(alloc, Vec::new(alloc), entries, Vec::new(alloc))
}

/// A session without a file, in which this call kills its node before this step.
pub fn with_death(alloc: Global, call: CallId, step: Step) -> Option<Shelf<Prefs>>
    ensures { IfSome result (λ shelf. IsFresh A (shelf_seen shelf)) }
{
    let Ok(deaths) = vec![in alloc; PlannedDeath { call, step }] else {
        return None;
    };
    planned(alloc, Vec::new(alloc), MANY, deaths)
}

/// A session without a file, in which these calls of the folder fail and these deaths come, and so many entries make a full
/// history.
fn planned(
    alloc: Global,
    failing: Vec<Planned>,
    entries: u64,
    deaths: Vec<PlannedDeath>,
) -> Option<Shelf<Prefs>>
    ensures { IfSome result (λ shelf. IsFresh A (shelf_seen shelf)) }
{
    let Ok(folder) = MemFolder::new(alloc, MainRead::Absent, failing) else {
        return None;
    };
    let Ok(settings) = PrefsCodec.default_value(alloc) else {
        return None;
    };
    let Ok(settings) = Arc::new(alloc, settings) else {
        return None;
    };
    let base = Base::Held(settings);
    session(alloc, PrefsCodec, folder, base, entries, deaths)
}

/// A session over a file of these bytes, which are a map of settings.
pub fn with_file(alloc: Global, bytes: Vec<u8>) -> Option<Shelf<Prefs>>
    ensures { IfSome result (λ shelf. IsFresh A (shelf_seen shelf)) }
{
    if bytes.len() > 1_048_576 {
        return None;
    }
    let Ok(Decoded::Good(settings)) = PrefsCodec.decode(alloc, bytes.as_slice()) else {
        return None;
    };
    let Ok(settings) = Arc::new(alloc, settings) else {
        return None;
    };
    let main = MainRead::Bytes(FileBytes::new(bytes));
    let Ok(folder) = MemFolder::new(alloc, main, Vec::new(alloc)) else {
        return None;
    };
    let base = Base::Held(settings);
    session(alloc, PrefsCodec, folder, base, MANY, Vec::new(alloc))
}

fn key(alloc: Global, name: &str) -> Option<PrefKey> {
    PrefKey::new(String::from_str(alloc, name).ok()?).ok()
}

fn edit_of(alloc: Global, step: EditStep) -> Option<Edit> {
    let Ok(steps) = vec![in alloc; step] else {
        return None;
    };
    Edit::new(steps).ok()
}

/// The edit `set NAME int NUMBER`.
pub fn set(alloc: Global, name: &str, number: i32) -> Option<Edit> {
    let key = key(alloc, name)?;
    let value = PrefValue::Int(number);
    edit_of(alloc, EditStep::Set { key, value })
}

/// The edit `addint NAME AMOUNT`.
pub fn add(alloc: Global, name: &str, amount: i32) -> Option<Edit> {
    let key = key(alloc, name)?;
    edit_of(alloc, EditStep::AddInt { key, amount })
}

/// The edit `clear`.
pub fn clear(alloc: Global) -> Option<Edit> {
    edit_of(alloc, EditStep::Clear)
}

fn name_of(call: CallId) -> &'static str {
    if call == A {
        "a1"
    } else if call == A_NEXT {
        "a2"
    } else if call == B {
        "b1"
    } else if call == B_NEXT {
        "b2"
    } else if call == B_LAST {
        "b3"
    } else {
        "nobody"
    }
}

fn word_of(kind: &Kind<PrefMap, Edit>) -> &'static str {
    match kind {
        Kind::Raise => " raise\n",
        Kind::Edit(_) => " edit\n",
        Kind::Same(_) => " same\n",
        Kind::Synced => " synced\n",
        Kind::Inited(_) => " inited\n",
        Kind::Fault(_, _) => " fault\n",
        Kind::Death(_) => " death\n",
        Kind::Restart(_) => " restart\n",
        _ => " another\n",
    }
}

/// What the history tells, an entry a line.
fn told(alloc: Global, shelf: &Shelf<Prefs>) -> Result<String, AllocError> {
    let mut lines = String::new(alloc);
    for place in 0..shelf.journal().len() {
        if let Some(entry) = shelf.journal().entry(place + 1) {
            lines.push_str(name_of(entry.who))?;
            lines.push_str(word_of(&entry.kind))?;
        }
    }
    Ok(lines)
}

/// Whether the history tells these lines.
pub fn tells(alloc: Global, shelf: &Shelf<Prefs>, lines: &str) -> bool {
    match told(alloc, shelf) {
        Ok(told) => told.as_str() == lines,
        Err(_) => false,
    }
}

/// Whether main has these bytes.
pub fn main_is(shelf: Shelf<Prefs>, bytes: &[u8]) -> bool {
    let folder = shelf.into_parts().folder;
    folder.main().is_some_and(|main| main == bytes)
}
