//! A transcript as it is written, and writes that fail in its middle.
ghost use Rattle.std.specs.Prelude.{◌≡◌, All, IfOk, length};
ghost use Rattle.hist_journal.specs.View.{kind_seen};
ghost use Rattle.prefs_text.specs.AnswerText.{AnswerHasNames};
ghost use Rattle.prefs_text.specs.EntryText.{EntryHasNames, KindHasNames};
ghost use Rattle.script_lang.specs.TranscriptText.{HasNames, SessionHasNames};
ghost use Rattle.script_lang.specs.TranscriptView.{session_seen};

use byte_io::MemSink;
use hist_journal::{Base, Bounds, Entry, Journal, Kind, PrefName};
use prefs_edit::Edit;
use prefs_model::PrefMap;
use prefs_text::{Answer, AnswerLine, NameList, Names};
use script_lang::{
    AnswerList, FileSeen, Session, SessionList, Transcript, WriteTextError, write_transcript,
};
use std::alloc::{AllocError, Global};
use std::sync::Arc;
use store_traits::{CallId, ClientId, FileBytes, NodeId};

fn call(number: u32) -> CallId
    ensures { result.client.0 ≡ 0 }
{
    CallId {
        node: NodeId(0),
        client: ClientId(0),
        number,
    }
}

fn one_name(alloc: Global, text: &str) -> Result<NameList, AllocError>
    ensures { IfOk result (λ list. length list ≡ 1) }
{
    let mut names = Vec::new(alloc);
    names.push(PrefName::new(String::from_str(alloc, text)?))?;
    Ok(NameList::new(names))
}

fn names(alloc: Global) -> Result<Names, AllocError>
    ensures { IfOk result (λ names. (length names.nodes ≡ 1) × (length names.clients ≡ 1)) }
{
    let nodes = one_name(alloc, "n1")?;
    let clients = one_name(alloc, "a")?;
    Ok(Names { nodes, clients })
}

// The answers of so many updates.
fn answers(alloc: Global, names: &Names, count: u32) -> Result<AnswerList, AllocError>
    requires { length names.now.clients ≡ 1 }
    ensures { IfOk result (All (AnswerHasNames names.now)) }
{
    let _ = names;
    let mut lines = Vec::new(alloc);
    for number in 0..count {
        lines.push(AnswerLine {
            call: call(number + 1),
            poster: None,
            answer: Answer::Updated(u64::from(number)),
        })?;
    }
    Ok(AnswerList::new(lines))
}

fn add(
    journal: &mut Journal<PrefMap, Edit>,
    names: &Names,
    kind: Kind<PrefMap, Edit>,
) -> Result<(), AllocError>
    requires client { length names.now.clients ≡ 1 }
    requires node { KindHasNames names.now (kind_seen kind) }
    requires so_far { All (EntryHasNames names.now) journal.old.list }
    ensures { All (EntryHasNames names.now) journal.new.list }
{
    let _ = names;
    journal.reserve_past(1)?;
    let who = call(1);
    journal.push(Entry { who, kind }, 0);
    Ok(())
}

// A node that is initialised and raised the version, or nothing.
fn journal(
    alloc: Global,
    names: &Names,
    is_empty: bool,
) -> Result<Journal<PrefMap, Edit>, AllocError>
    requires client { length names.now.clients ≡ 1 }
    requires node { length names.now.nodes ≡ 1 }
    ensures { IfOk result (λ journal. All (EntryHasNames names.now) journal.list) }
{
    let bounds = Bounds {
        entries: 9,
        weight: 9,
    };
    let mut journal = Journal::new(alloc, Base::Corrupt, bounds);
    if !is_empty {
        add(&mut journal, names, Kind::Inited(NodeId(0)))?;
        add(&mut journal, names, Kind::Raise)?;
    }
    Ok(journal)
}

fn base(alloc: Global, which: u8) -> Result<Base<PrefMap>, AllocError> {
    Ok(match which {
        0 => Base::Held(Arc::new(alloc, PrefMap::new(alloc))?),
        1 => Base::Corrupt,
        _ => Base::TooLong(1048577),
    })
}

fn file(alloc: Global, which: u8) -> Result<FileSeen, AllocError> {
    Ok(match which {
        0 => FileSeen::Bytes(FileBytes::new(Vec::from_slice(alloc, &[0x0a, 0xff, 0])?)),
        1 => FileSeen::Bytes(FileBytes::new(Vec::new(alloc))),
        2 => FileSeen::TooLong(1048578),
        _ => FileSeen::Absent,
    })
}

// The first session alone has answers and entries.
fn session(alloc: Global, names: &Names, which: u8, count: u32) -> Result<Session, AllocError>
    requires client { length names.now.clients ≡ 1 }
    requires node { length names.now.nodes ≡ 1 }
    ensures { IfOk result (λ session. SessionHasNames names.now (session_seen session)) }
{
    Ok(Session {
        base: base(alloc, which)?,
        answers: answers(alloc, names, if which == 0 { count } else { 0 })?,
        journal: journal(alloc, names, which > 0)?,
        file: file(alloc, which)?,
    })
}

fn sessions(alloc: Global, names: &Names, count: u32) -> Result<SessionList, AllocError>
    requires client { length names.now.clients ≡ 1 }
    requires node { length names.now.nodes ≡ 1 }
    ensures { IfOk result (All (SessionHasNames names.now)) }
{
    let mut sessions = Vec::new(alloc);
    for which in 0..4 {
        sessions.push(session(alloc, names, which, count)?)?;
    }
    Ok(SessionList::new(sessions))
}

fn transcript(alloc: Global, count: u32) -> Result<Transcript, AllocError>
    ensures { IfOk result HasNames }
{
    let names = names(alloc)?;
    let sessions = sessions(alloc, &names, count)?;
    Ok(Transcript { names, sessions })
}

/// The sink behind the writing of a transcript with so many answers, and how that ended.
type Written = (MemSink, Result<(), WriteTextError>);

fn written(alloc: Global, count: u32, failing: Vec<u32>) -> Result<Written, AllocError> {
    let transcript = transcript(alloc, count)?;
    let mut sink = MemSink::new(alloc, 1 << 20, failing)?;
    let ended = write_transcript(alloc, &mut sink, &transcript);
    Ok((sink, ended))
}

const TEXT: &str = "\
session 1
base {}
a 1 updated 0
a 2 updated 1
entry 1 a 1 inited n1
entry 2 a 1 raise
file 0aff00
session 2
base corrupt
file empty
session 3
base toolong 1048577
file toolong 1048578
session 4
base toolong 1048577
file none
";

fn is_written(alloc: Global) -> Option<bool> {
    let (sink, ended) = written(alloc, 2, Vec::new(alloc)).ok()?;
    Some(ended == Ok(()) && sink.held() == TEXT.as_bytes())
}

#[test]
fn every_session_is_written(rt: HostRuntime) {
    assert_eq!(rt; is_written(rt.alloc()), Some(true));
}

/// What the sink holds where its write of this number fails.
fn front(alloc: Global, count: u32, failing: u32) -> Result<Option<MemSink>, AllocError> {
    let (sink, ended) = written(alloc, count, vec![in alloc; failing]?)?;
    Ok((ended == Err(WriteTextError::WriteFault)).then_some(sink))
}

fn is_front(alloc: Global) -> Option<bool> {
    let sink = front(alloc, 1000, 2).ok()??;
    let first = sink.held();
    Some(first.len() >= 4096 && first.len() < 4200 && first.ends_with(b"\n"))
}

#[test]
fn many_lines_are_written_at_once(rt: HostRuntime) {
    assert_eq!(rt; is_front(rt.alloc()), Some(true));
}

fn is_nothing(alloc: Global) -> Option<bool> {
    let sink = front(alloc, 2, 1).ok()??;
    Some(sink.held().is_empty())
}

#[test]
fn a_write_that_fails_is_a_fault(rt: HostRuntime) {
    assert_eq!(rt; is_nothing(rt.alloc()), Some(true));
}
