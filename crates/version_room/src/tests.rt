//! Rooms of a journal, as callers use them: on one thread and on two.
ghost use Rattle.std.specs.Prelude.{◌≡◌, ◌+◌, ◌-◌, ◌^◌, ◌<◌, ◌≤◌, [], IsTrue, length, vec_capacity, vec_len};
ghost use Rattle.hist_journal.specs.Journal.{KeepsHistory};
ghost use Rattle.hist_journal.specs.ListedJournal.{journal_meaning};
ghost use Rattle.version_room.specs.Known.{HasClient, HasClients, all_clients};
ghost use Rattle.version_room.specs.Seats.{IsOf, known};

use crate::{Note, Pass, Room};
use hist_journal::{Base, Bounds, Entry, Journal, Kind};
use std::alloc::Global;
use std::sync::Wait;
use std::test::Fail;
use std::thread::{Threads, join};
use store_traits::{CallId, ClientId, NodeId, Word};

type Log = Journal<u64, u64>;

fn empty_log(alloc: Global) -> Log
    ensures { result.list ≡ [] }
{
    let bounds = Bounds {
        entries: 100_000,
        weight: 100_000,
    };
    Journal::new(alloc, Base::Corrupt, bounds)
}

/// Whether one more entry needs no memory, in a journal of fewer than 2^40.
fn has_room(log: &mut Log) -> bool
    ensures same { KeepsHistory log.old log.new }
    ensures room { IsTrue result → (1 ≤ log.new.room) × (length log.new.list < 2 ^ 40) }
{
    log.len() < 1 << 40 && log.reserve_past(1).is_ok()
}

/// Raises a word, and answers its number.
fn raised<W: Word>(word: &mut W) -> u64
    requires ready { W.ready (W.made word.old) }
    requires low { W.number word.old < 2 ^ 64 - 1 }
    ensures result { result ≡ W.number word.new }
    ensures number { W.number word.new ≡ W.number word.old + 1 }
    ensures made { W.made word.new ≡ W.made word.old }
{
    word.raise();
    word.load()
}

/// Raises the version in a turn, and adds the Raise entry of this client. Not where there is no memory.
fn raise_in_turn<R: Wait>(rt: &R, room: &Room<Log>, pass: &mut Pass<Log>, client: u32) -> bool
    requires room { IsOf journal_meaning room.now pass.old.seat }
    requires client { HasClient (known pass.old.seat) client }
    ensures room { IsOf journal_meaning room.now pass.new.seat }
    ensures clients { HasClients (known pass.new.seat) (known pass.old.seat).low (known pass.old.seat).high }
{
    let who = CallId {
        node: NodeId(1),
        client: ClientId(client),
        number: 1,
    };
    let mut turn = room.enter(rt, pass);
    let mut log = turn.take();
    let is_open = has_room(&mut log);
    if !is_open {
        turn.leave(log);
        return false;
    }
    raised(&mut turn);
    let entry = Entry {
        who,
        kind: Kind::Raise,
    };
    log.push(entry, 0);
    turn.leave(log);
    true
}

/// A turn that changes nothing, and answers how many entries there are.
fn len_in_turn<R: Wait>(rt: &R, room: &Room<Log>, pass: &mut Pass<Log>) -> u64
    requires { IsOf journal_meaning room.now pass.old.seat }
    ensures room { IsOf journal_meaning room.now pass.new.seat }
    ensures clients { HasClients (known pass.new.seat) (known pass.old.seat).low (known pass.old.seat).high }
{
    let mut turn = room.enter(rt, pass);
    let log = turn.take();
    let entries = log.len();
    turn.leave(log);
    entries
}

/// A thousand turns of `raise_in_turn`.
fn raise_often<R: Wait>(rt: &R, room: &Room<Log>, mut pass: Pass<Log>, client: u32) -> Pass<Log>
    requires room { IsOf journal_meaning room.now pass.seat }
    requires client { HasClient (known pass.seat) client }
    ensures room { IsOf journal_meaning room.now result.seat }
    ensures clients { HasClients (known result.seat) (known pass.seat).low (known pass.seat).high }
{
    for _ in 0..1000 {
        raise_in_turn(rt, room, &mut pass, client);
    }
    pass
}

/// Each of two threads takes a thousand turns.
fn raise_on_two_threads<R: Threads + Wait + Sync>(
    rt: &R,
    room: &Room<Log>,
    p: Pass<Log>,
    q: Pass<Log>,
) -> (Pass<Log>, Pass<Log>)
    requires room { IsOf journal_meaning room.now p.seat × IsOf journal_meaning room.now q.seat }
    requires clients { HasClients (known p.seat) 1 all_clients × HasClients (known q.seat) 0 1 }
    ensures room { IsOf journal_meaning room.now result.0.seat × IsOf journal_meaning room.now result.1.seat }
    ensures clients { HasClients (known result.0.seat) 1 all_clients × HasClients (known result.1.seat) 0 1 }
{
    join(
        rt,
        || -> Pass<Log>
            requires { IsOf journal_meaning room.now p.seat × HasClients (known p.seat) 1 all_clients }
            ensures { IsOf journal_meaning room.entry.now result.seat × HasClients (known result.seat) 1 all_clients }
        { raise_often(rt, room, p, 7) },
        || -> Pass<Log>
            requires { IsOf journal_meaning room.now q.seat × HasClients (known q.seat) 0 1 }
            ensures { IsOf journal_meaning room.entry.now result.seat × HasClients (known result.seat) 0 1 }
        { raise_often(rt, room, q, 0) },
    )
}

/// Closes a room of two passes.
fn close_both(room: Room<Log>, p: Pass<Log>, q: Pass<Log>, mut rest: Vec<Pass<Log>>) -> Log
    requires room { IsOf journal_meaning room p.seat × IsOf journal_meaning room q.seat }
    requires clients { HasClients (known p.seat) 1 all_clients × HasClients (known q.seat) 0 1 }
    requires memory { (rest.items ≡ []) × (vec_len rest < vec_capacity rest) }
{
    match rest.push(q) {
        Ok(()) => {}
        Err(_) => unreachable!(),
    }
    room.close(p, rest)
}

/// How many entries the client has.
fn entries_of(log: &Log, client: u32) -> u64 {
    let mut count = 0u64;
    for at in 0..log.len() {
        if let Some(entry) = log.entry(at.saturating_add(1)) {
            if entry.who.client == ClientId(client) {
                count = count.saturating_add(1);
            }
        }
    }
    count
}

#[test]
fn a_pass_learns_of_another_pass_and_both_close_the_room(rt: HostRuntime) -> Result<(), Fail> {
    let alloc = rt.alloc();
    let rest = Vec::with_capacity(alloc, 1)?;
    let Ok((room, mut p)) = Room::new(alloc, empty_log(alloc)) else {
        return Err(Fail::from("no memory"));
    };
    let mut q = room.new_pass(&mut p);
    assert_eq!(rt; room.load_version(&mut q), 0);
    assert!(rt; raise_in_turn(&rt, &room, &mut p, 1));
    assert_eq!(rt; room.load_version(&mut q), 1);
    let note = room.note(&mut p);
    room.learn(&mut q, note);
    assert_eq!(rt; len_in_turn(&rt, &room, &mut q), 1);
    let log = close_both(room, p, q, rest);
    assert_eq!(rt; (log.len(), entries_of(&log, 1)), (1, 1));
    Ok(())
}

#[test]
fn two_threads_take_a_thousand_turns_each(rt: HostRuntime) -> Result<(), Fail> {
    let alloc = rt.alloc();
    let rest = Vec::with_capacity(alloc, 1)?;
    let Ok((room, mut p)) = Room::new(alloc, empty_log(alloc)) else {
        return Err(Fail::from("no memory"));
    };
    let q = room.new_pass(&mut p);
    let (mut p, q) = raise_on_two_threads(&rt, &room, p, q);
    assert_eq!(rt; room.load_version(&mut p), 2000);
    let log = close_both(room, p, q, rest);
    assert_eq!(rt; (entries_of(&log, 7), entries_of(&log, 0)), (1000, 1000));
    Ok(())
}

fn crosses_threads<T: Send>() {}

fn is_shared_by_threads<T: Send + Sync>() {}

#[test]
fn rooms_are_shared_and_passes_cross_threads() {
    is_shared_by_threads::<Room<Log>>();
    crosses_threads::<(Pass<Log>, Note<Log>)>();
}
