//! Printed edits, entries and answers.
ghost use Rattle.std.specs.Prelude.{◌≡◌, ◌<◌, IfOk, IfSome, length};
ghost use Rattle.hist_journal.specs.View.{kind_seen};
ghost use Rattle.prefs_text.specs.Callers.{HasCaller};
ghost use Rattle.prefs_text.specs.EntryText.{KindHasNames};

use crate::rows::{key_of, map_of, string_of, text_of};
use hist_journal::{Device, Entry, Kind, PrefName, Sections};
use prefs_edit::{Edit, EditStep};
use prefs_model::{PrefMap, PrefText, PrefValue, TextSet};
use prefs_text::{Answer, AnswerLine, NameList, Names, answer_text, edit_text, entry_text};
use std::alloc::{AllocError, Global};
use std::sync::Arc;
use store_traits::{CallId, ClientId, Given, NodeId};

fn name(alloc: Global, text: &str) -> Result<PrefName, AllocError> {
    Ok(PrefName::new(string_of(alloc, text)?))
}

fn two_names(alloc: Global, first: &str, second: &str) -> Result<NameList, AllocError>
    ensures { IfOk result (λ list. length list ≡ 2) }
{
    let mut names = Vec::new(alloc);
    names.push(name(alloc, first)?)?;
    names.push(name(alloc, second)?)?;
    Ok(NameList::new(names))
}

// Two nodes and two clients, so that the actors are the callers 2 and 3.
fn names(alloc: Global) -> Result<Names, AllocError>
    ensures { IfOk result (λ names. (length names.nodes ≡ 2) × (length names.clients ≡ 2)) }
{
    let nodes = two_names(alloc, "n1", "n2")?;
    let clients = two_names(alloc, "a", "b")?;
    Ok(Names { nodes, clients })
}

fn step(alloc: Global, which: u8) -> Option<EditStep> {
    let key = key_of(alloc, "a \"k\"")?;
    Some(match which {
        0 => EditStep::Set {
            key,
            value: PrefValue::Int(1),
        },
        1 => EditStep::Remove { key },
        2 => EditStep::Clear,
        3 => EditStep::AddInt { key, amount: -5 },
        4 => EditStep::AddLong {
            key,
            amount: i64::MIN,
        },
        5 => EditStep::Toggle { key },
        6 => EditStep::InsertText {
            key,
            text: text_of(alloc, "é;")?,
        },
        7 => EditStep::RemoveText {
            key,
            text: text_of(alloc, "")?,
        },
        _ => EditStep::Require {
            key,
            value: PrefValue::Texts(TextSet::new(alloc)),
        },
    })
}

fn edit_of(alloc: Global, steps: &[u8]) -> Option<Edit> {
    let mut made = Vec::new(alloc);
    for which in steps {
        made.push(step(alloc, *which)?).ok()?;
    }
    Edit::new(made).ok()
}

fn edit_prints(alloc: Global, steps: &[u8], text: &str) -> Option<bool> {
    let edit = edit_of(alloc, steps)?;
    Some(edit_text(alloc, &edit).ok()?.as_str() == text)
}

/// The texts of the edits with one step, by their numbers.
const EDITS: [&str; 9] = [
    r#"set "a \"k\"" int 1"#,
    r#"remove "a \"k\"""#,
    "clear",
    r#"addint "a \"k\"" -5"#,
    r#"addlong "a \"k\"" -9223372036854775808"#,
    r#"toggle "a \"k\"""#,
    r#"insert "a \"k\"" "é;""#,
    r#"erase "a \"k\"" """#,
    r#"require "a \"k\"" texts []"#,
];

#[test]
fn edits_are_printed(rt: HostRuntime) {
    for (which, text) in EDITS.iter().enumerate() {
        assert_eq!(rt;
            edit_prints(rt.alloc(), &[which as u8], text),
            Some(true),
            "{text}"
        );
    }
    let text = r#"many clear ; toggle "a \"k\"" ; clear"#;
    assert_eq!(rt; edit_prints(rt.alloc(), &[2, 5, 2], text), Some(true));
}

fn toggles(alloc: Global) -> Option<Edit> {
    let key = key_of(alloc, "k")?;
    let steps = vec![in alloc; EditStep::Toggle { key }].ok()?;
    Edit::new(steps).ok()
}

fn sections(alloc: Global) -> Result<Sections, AllocError> {
    let mut sections = Sections::new(alloc);
    sections.push(name(alloc, "old")?)?;
    sections.push(name(alloc, "")?)?;
    Ok(sections)
}

fn map(alloc: Global) -> Option<Arc<PrefMap>> {
    Arc::new(alloc, map_of(alloc, &["k|bool true"])?).ok()
}

fn kind(alloc: Global, names: &Names, which: u8) -> Option<Kind<PrefMap, Edit>>
    requires { 1 < length names.now.nodes }
    ensures { IfSome result (λ kind. KindHasNames names.now (kind_seen kind)) }
{
    let _ = names;
    Some(match which {
        0 => Kind::Raise,
        1 => Kind::Edit(toggles(alloc)?),
        2 => Kind::Same(toggles(alloc)?),
        3 => Kind::Replace(map(alloc)?),
        4 => Kind::Migrate(sections(alloc).ok()?, map(alloc)?),
        5 => Kind::Synced,
        6 => Kind::Cleared(name(alloc, "old").ok()?),
        7 => Kind::Inited(NodeId(0)),
        8 => Kind::Fault(Device::Folder, 1),
        9 => Kind::Fault(Device::Legacy, u64::MAX),
        10 => Kind::Death(NodeId(1)),
        _ => Kind::Restart(NodeId(1)),
    })
}

// The node of a call is not printed.
fn call(client: ClientId, number: u32) -> CallId
    ensures { result.client ≡ client }
{
    CallId {
        node: NodeId(7),
        client,
        number,
    }
}

fn printed_entry(alloc: Global, names: &Names, which: u8, client: ClientId) -> Option<PrefText>
    requires node { 1 < length names.now.nodes }
    requires caller { HasCaller names.now client }
{
    let entry = Entry {
        who: call(client, 3),
        kind: kind(alloc, names, which)?,
    };
    entry_text(alloc, names, 12, &entry).ok()
}

/// Whether the entry of this number prints so, added by a call of one of the four callers.
fn entry_prints(alloc: Global, which: u8, client: u32, text: &str) -> Option<bool> {
    if client > 3 {
        return None;
    }
    let names = names(alloc).ok()?;
    let printed = printed_entry(alloc, &names, which, ClientId(client))?;
    Some(printed.as_str() == text)
}

/// The caller and the text of the entries, by their numbers.
const ENTRIES: [(u32, &str); 12] = [
    (0, "entry 12 a 3 raise"),
    (1, r#"entry 12 b 3 edit toggle "k""#),
    (2, r#"entry 12 @n1 3 same toggle "k""#),
    (3, r#"entry 12 @n2 3 replace {"k" bool true}"#),
    (0, r#"entry 12 a 3 migrate ["old",""] {"k" bool true}"#),
    (0, "entry 12 a 3 synced"),
    (0, r#"entry 12 a 3 cleared "old""#),
    (0, "entry 12 a 3 inited n1"),
    (0, "entry 12 a 3 fault folder 1"),
    (0, "entry 12 a 3 fault legacy 18446744073709551615"),
    (0, "entry 12 a 3 death n2"),
    (0, "entry 12 a 3 restart n2"),
];

#[test]
fn entries_are_printed(rt: HostRuntime) {
    for (which, (client, text)) in ENTRIES.iter().enumerate() {
        let is_printed = entry_prints(rt.alloc(), which as u8, *client, text);
        assert_eq!(rt; is_printed, Some(true), "{text}");
    }
}

fn given(alloc: Global) -> Option<Given<PrefMap>> {
    Some(Given {
        edition: 4,
        value: map(alloc)?,
    })
}

fn answer(alloc: Global, which: u8) -> Option<Answer> {
    Some(match which {
        0 => Answer::Updated(1),
        1 => Answer::Read(given(alloc)?),
        2 => Answer::Flow(given(alloc)?),
        3 => Answer::Unchanged(2),
        4 => Answer::Refused(3, 4),
        5 => Answer::Corrupt,
        6 => Answer::FileTooLong(5),
        7 => Answer::ValueTooLong(6),
        8 => Answer::HistoryFull(7, 8),
        9 => Answer::StorageFault(9),
        10 => Answer::NotDurable(10),
        11 => Answer::LegacyFault(11),
        12 => Answer::Died(12),
        13 => Answer::Posted,
        14 => Answer::Full,
        15 => Answer::Restarted(13),
        16 => Answer::NotDead,
        _ => Answer::Cut,
    })
}

/// Whether the answer of this number prints so, which the second client is given.
fn answer_prints(alloc: Global, which: u8, text: &str) -> Option<bool> {
    let line = AnswerLine {
        call: call(ClientId(1), u32::MAX),
        poster: None,
        answer: answer(alloc, which)?,
    };
    let names = names(alloc).ok()?;
    Some(answer_text(alloc, &names, &line).ok()?.as_str() == text)
}

/// The texts of the answers, by their numbers.
const ANSWERS: [&str; 18] = [
    "b 4294967295 updated 1",
    r#"b 4294967295 read 4 {"k" bool true}"#,
    r#"b 4294967295 flow 4 {"k" bool true}"#,
    "b 4294967295 unchanged 2",
    "b 4294967295 refused 3 4",
    "b 4294967295 corrupt",
    "b 4294967295 filetoolong 5",
    "b 4294967295 valuetoolong 6",
    "b 4294967295 historyfull 7 8",
    "b 4294967295 storagefault 9",
    "b 4294967295 notdurable 10",
    "b 4294967295 legacyfault 11",
    "b 4294967295 died 12",
    "b 4294967295 posted",
    "b 4294967295 full",
    "b 4294967295 restarted 13",
    "b 4294967295 notdead",
    "b 4294967295 cut",
];

#[test]
fn answers_are_printed(rt: HostRuntime) {
    for (which, text) in ANSWERS.iter().enumerate() {
        assert_eq!(rt;
            answer_prints(rt.alloc(), which as u8, text),
            Some(true),
            "{text}"
        );
    }
}

fn poster_is_named(alloc: Global) -> Option<bool> {
    let line = AnswerLine {
        call: call(ClientId(2), 1),
        poster: Some(call(ClientId(0), 5)),
        answer: Answer::Updated(1),
    };
    let names = names(alloc).ok()?;
    Some(answer_text(alloc, &names, &line).ok()?.as_str() == "@n1 1 for a 5 updated 1")
}

#[test]
fn an_actor_names_the_poster(rt: HostRuntime) {
    assert_eq!(rt; poster_is_named(rt.alloc()), Some(true));
}
