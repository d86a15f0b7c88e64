//! The writing of a long transcript: the answers of updates, and their entries.
ghost use Rattle.std.specs.Prelude.{◌≡◌, ◌+◌, ◌≤◌, All, IfOk, length};
ghost use Rattle.prefs_text.specs.AnswerText.{AnswerHasNames};
ghost use Rattle.prefs_text.specs.EntryText.{EntryHasNames};
ghost use Rattle.script_lang.specs.TranscriptText.{HasNames, SessionHasNames};
ghost use Rattle.script_lang.specs.TranscriptView.{session_seen};

use anyhow::Result;
use byte_io::Sink;
use hist_journal::{Base, Bounds, Entry, Journal, Kind, PrefName};
use prefs_edit::{Edit, EditStep};
use prefs_model::{PrefKey, PrefMap, PrefValue};
use prefs_text::{Answer, AnswerLine, NameList, Names};
use script_lang::{AnswerList, FileSeen, Session, SessionList, Transcript, write_transcript};
use std::alloc::Global;
use std::hint::black_box;
use std::time::Instant;
use store_traits::{CallId, ClientId, Failed, NodeId};

/// How many lines the transcripts of a round have together, at least.
const ROUND_LINES: u32 = 400_000;

/// How many transcripts of so many lines a round has.
pub(crate) fn count_of(lines: u32) -> u32 {
    (ROUND_LINES / lines.max(1)).max(1)
}

/// The nanoseconds of the fastest of so many rounds, in each of which transcripts of so many lines, and three, are
/// written one after the other. Rounds of all sizes go over as much memory, so that none finds it in a cache.
pub(crate) fn fastest_round(rt: &HostRuntime, lines: u32, rounds: u32) -> Result<u128> {
    let transcripts = transcripts(rt.alloc(), lines / 2, count_of(lines))?;
    let mut fastest = u128::MAX;
    for _ in 0..rounds {
        let start = Instant::now(rt)?;
        write_all_of(rt.alloc(), &transcripts)?;
        fastest = fastest.min(start.elapsed(rt)?.as_nanos());
    }
    Ok(fastest)
}

fn write_all_of(alloc: Global, transcripts: &[Transcript]) -> Result<()>
    requires { All HasNames transcripts.now }
{
    for transcript in transcripts {
        write_transcript(alloc, &mut Discard, transcript)?;
    }
    Ok(())
}

fn transcripts(alloc: Global, updates: u32, count: u32) -> Result<Vec<Transcript>>
    ensures { IfOk result (λ transcripts. All HasNames transcripts.items) }
{
    let mut transcripts = Vec::new(alloc);
    for _ in 0..count {
        transcripts.push(transcript(alloc, updates)?)?;
    }
    Ok(transcripts)
}

/// A sink that takes every piece whole and keeps nothing.
#[derive(Drop)]
struct Discard;

impl Sink for Discard {
    ghost use Rattle.std.specs.Prelude.{[], false};

    ghost told = { false };

    ghost held = { λ _. [] };

    ghost count = { λ _. 0 };

    fn write(&mut self, piece: &[u8]) -> std::result::Result<usize, Failed> {
        Ok(black_box(piece).len())
    }
}

fn transcript(alloc: Global, updates: u32) -> Result<Transcript>
    ensures { IfOk result HasNames }
{
    let names = names(alloc)?;
    let mut sessions = Vec::new(alloc);
    sessions.push(session(alloc, &names, updates)?)?;
    Ok(Transcript {
        names,
        sessions: SessionList::new(sessions),
    })
}

fn session(alloc: Global, names: &Names, updates: u32) -> Result<Session>
    requires { length names.now.clients ≡ 1 }
    ensures { IfOk result (λ session. SessionHasNames names.now (session_seen session)) }
{
    Ok(Session {
        base: Base::Corrupt,
        answers: answers(alloc, names, updates)?,
        journal: journal(alloc, names, updates)?,
        file: FileSeen::Absent,
    })
}

fn names(alloc: Global) -> Result<Names>
    ensures { IfOk result (λ names. length names.clients ≡ 1) }
{
    let mut clients = Vec::new(alloc);
    clients.push(PrefName::new(String::from_str(alloc, "a")?))?;
    Ok(Names {
        nodes: NameList::new(Vec::new(alloc)),
        clients: NameList::new(clients),
    })
}

fn call(number: u32) -> CallId
    ensures { result.client.0 ≡ 0 }
{
    CallId {
        node: NodeId(0),
        client: ClientId(0),
        number,
    }
}

fn answers(alloc: Global, names: &Names, updates: u32) -> Result<AnswerList>
    requires { length names.now.clients ≡ 1 }
    ensures { IfOk result (All (AnswerHasNames names.now)) }
{
    let _ = names;
    let mut lines = Vec::new(alloc);
    for number in 0..updates {
        lines.push(AnswerLine {
            call: call(number),
            poster: None,
            answer: Answer::Updated(u64::from(number)),
        })?;
    }
    Ok(AnswerList::new(lines))
}

fn journal(alloc: Global, names: &Names, updates: u32) -> Result<Journal<PrefMap, Edit>>
    requires { length names.now.clients ≡ 1 }
    ensures { IfOk result (λ journal. All (EntryHasNames names.now) journal.list) }
{
    let _ = names;
    let bounds = Bounds {
        entries: u64::MAX,
        weight: u64::MAX,
    };
    let mut journal = Journal::new(alloc, Base::Corrupt, bounds);
    journal.reserve_past(updates)?;
    for number in 0..updates {
        let kind = Kind::Edit(edit(alloc, number)?);
        let who = call(number);
        journal.push(Entry { who, kind }, 0);
    }
    Ok(journal)
}

fn edit(alloc: Global, number: u32) -> Result<Edit> {
    let key = PrefKey::new(String::from_str(alloc, "volume")?)?;
    let mut steps = Vec::new(alloc);
    steps.push(EditStep::Set {
        key,
        value: PrefValue::Long(i64::from(number)),
    })?;
    Ok(Edit::new(steps)?)
}
