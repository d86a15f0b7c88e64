//! What turns in a room cost, and loads of its version, on so many threads.
ghost use Rattle.std.specs.Prelude.{◌≡◌, ◌<◌, ◌≤◌, [], IsTrue, length};
ghost use Rattle.hist_journal.specs.Journal.{KeepsHistory};
ghost use Rattle.hist_journal.specs.ListedJournal.{journal_meaning};
ghost use Rattle.version_room.specs.Known.{HasClient, HasClients, first_known};
ghost use Rattle.version_room.specs.Seats.{IsOf, known};

use anyhow::{Result, bail};
use hist_journal::{Base, Bounds, Entry, Journal, Kind};
use std::alloc::Global;
use std::hint::black_box;
use std::sync::Wait;
use std::thread::{Threads, map_vec};
use store_traits::{CallId, ClientId, NodeId};
use version_room::{Pass, Room};

type Log = Journal<u64, u64>;

/// What each caller does again and again.
#[derive(Clone, Copy, Debug)]
pub enum RoomWork {
    /// Enters, adds an entry, and leaves.
    Turn,
    /// Loads the version.
    Load,
}

impl RoomWork {
    pub fn named(name: &str) -> Option<RoomWork> {
        match name {
            "turn" => Some(RoomWork::Turn),
            "load" => Some(RoomWork::Load),
            _ => None,
        }
    }
}

/// A caller with a client number of its own.
#[derive(Drop)]
struct Caller<'r> {
    room: &'r Room<Log>,
    pass: Pass<Log>,
    client: u32,
    ghost of: { IsOf journal_meaning room.now pass.seat },
    ghost own: { HasClient (known pass.seat) client },
}

impl<'r> Caller<'r> {
    /// Does the work so often, and answers whether all went well.
    fn works<R: Wait>(mut self, rt: &R, work: RoomWork, times: u32) -> bool {
        for _ in 0..times {
            if !self.works_once(rt, work) {
                return false;
            }
        }
        true
    }

    fn works_once<R: Wait>(&mut self, rt: &R, work: RoomWork) -> bool {
        match work {
            RoomWork::Turn => push_in_turn(rt, self.room, &mut self.pass, self.client),
            RoomWork::Load => {
                let _ = black_box(self.room.load_version(&mut self.pass));
                true
            }
        }
    }
}

/// Whether one more entry needs no memory.
fn has_room(log: &mut Log) -> bool
    ensures same { KeepsHistory log.old log.new }
    ensures room { IsTrue result → 1 ≤ log.new.room }
{
    log.reserve_past(1).is_ok()
}

/// Adds an entry in a turn. Not where there is no memory.
fn push_in_turn<R: Wait>(rt: &R, room: &Room<Log>, pass: &mut Pass<Log>, client: u32) -> bool
    requires room { IsOf journal_meaning room.now pass.old.seat }
    requires client { HasClient (known pass.old.seat) client }
    ensures room { IsOf journal_meaning room.now pass.new.seat }
    ensures clients { HasClients (known pass.new.seat) (known pass.old.seat).low (known pass.old.seat).high }
{
    let who = CallId {
        node: NodeId(1),
        client: ClientId(client),
        number: 1,
    };
    let mut turn = room.enter(rt, pass);
    let mut log = turn.take();
    let is_open = has_room(&mut log);
    if !is_open {
        turn.leave(log);
        return false;
    }
    let entry = Entry {
        who,
        kind: Kind::Synced,
    };
    log.push(entry, 0);
    turn.leave(log);
    true
}

/// So many callers, each with a pass that has one client number.
fn callers<'r>(
    alloc: Global,
    room: &'r Room<Log>,
    mut pass: Pass<Log>,
    count: u32,
) -> Result<Vec<Caller<'r>>>
    requires { IsOf journal_meaning room.now pass.seat × (known pass.seat ≡ first_known) }
{
    let mut callers = Vec::new(alloc);
    for client in 0..count {
        let caller = Caller {
            room,
            pass: room.new_pass(&mut pass),
            client,
        };
        if callers.push(caller).is_err() {
            bail!("there is no memory for the callers");
        }
    }
    Ok(callers)
}

/// So many callers, each on a thread of its own, do the work so often each.
pub fn run<R: Threads + Wait + Sync>(
    rt: &R,
    alloc: Global,
    work: RoomWork,
    threads: u32,
    times: u32,
) -> Result<()> {
    let bounds = Bounds {
        entries: u64::MAX,
        weight: u64::MAX,
    };
    let Ok((room, pass)) = Room::new(alloc, Log::new(alloc, Base::Corrupt, bounds)) else {
        bail!("there is no memory for a room");
    };
    let callers = callers(alloc, &room, pass, threads)?;
    let ended = map_vec(
        rt,
        callers,
        &|caller: Caller| { caller.works(rt, work, times) },
    )?;
    if !ended.iter().all(|&well| well) {
        bail!("there is no memory for the entries");
    }
    Ok(())
}
