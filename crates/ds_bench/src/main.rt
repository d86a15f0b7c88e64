//! Benchmarks, which are run by hand: it does a named work on a file so many times and prints how long
//! that took. It stands on the crates whose work it does. `bench/run` builds and runs it.
#![tactic(auto)]

mod deaths;
mod faults;
mod looks;
mod reads;
mod replays;
mod room;
mod scripts;
mod transcripts;

use anyhow::{Context, Result, bail};
use byte_io::{MemSink, NeverFails};
use folder_disk::{MainRead, MemFolder};
use prefs_model::PrefMap;
use prefs_proto::PrefsCodec;
use prefs_tool::{Status, run_tool};
use room::RoomWork;
use std::alloc::Global;
use std::hint::black_box;
use std::time::Instant;
use std::{env, fs};
use store_traits::{Codec, Decoded, FileBytes};

/// What is done once.
#[derive(Clone, Copy, Debug)]
enum Work {
    /// Walks the fields of the file.
    Walk,
    /// Reads the file as settings.
    Decode,
    /// Writes the settings of the file.
    Encode,
    /// Does the command `show` on the file, over devices in memory.
    Show,
}

impl Work {
    fn named(name: &str) -> Option<Work> {
        match name {
            "walk" => Some(Work::Walk),
            "decode" => Some(Work::Decode),
            "encode" => Some(Work::Encode),
            "show" => Some(Work::Show),
            _ => None,
        }
    }

    fn once(self, alloc: Global, bytes: &[u8], map: &PrefMap) -> Result<u64> {
        match self {
            Work::Walk => Ok(wire_codec::count_fields(bytes, 0)?),
            Work::Decode => Ok(settings_of(alloc, bytes)?.pairs().len() as u64),
            Work::Encode => Ok(PrefsCodec.encode(alloc, map)?.as_slice().len() as u64),
            Work::Show => shown(alloc, bytes),
        }
    }
}

/// How many bytes `show` prints of the file.
fn shown(alloc: Global, bytes: &[u8]) -> Result<u64> {
    let main = MainRead::Bytes(FileBytes::new(bytes.to_vec(alloc)?));
    let mut folder = MemFolder::new(alloc, main, Vec::new(alloc))?;
    // A line has at most a few bytes more than its entry.
    let room = (bytes.len() as u64).min(1 << 20) * 8;
    let mut sink = MemSink::new(alloc, room, Vec::new(alloc))?;
    let mut source = NeverFails::new(FileBytes::new(Vec::new(alloc)));
    let words = vec![in alloc; String::from_str(alloc, "show")?]?;
    match run_tool(alloc, &words, &mut source, &mut sink, &mut folder) {
        Status::Done => Ok(sink.held().len() as u64),
        _ => bail!("the file was not shown"),
    }
}

/// `ds_bench WORK FILE TIMES` prints the work, the file's bytes, the times and the nanoseconds in all.
/// `ds_bench turn THREADS TIMES` and `ds_bench load THREADS TIMES` print the work, the threads, the times on each
/// thread and the nanoseconds in all.
/// `ds_bench transcript LINES TIMES` prints that word, the lines, how many transcripts of so many lines are written
/// in a round, and the nanoseconds of the fastest of so many rounds.
/// `ds_bench scripts` reads a script of 10,000 lines and one of 100,000.
/// `ds_bench replay` replays scripts of 1,000 and of 20,000 updates over two clients, and `ds_bench reads` scripts of 1,000,
/// of 5,000 and of 20,000 reads.
/// `ds_bench faults` replays 30,000 updates, alone and beside 60,000 planned failures.
/// `ds_bench deaths` replays 30,000 updates, alone and beside 60,000 planned deaths, and scripts in which nodes die and are
/// brought back.
/// `ds_bench look` looks in a cache, and makes owners of a value, a million times each.
/// Without words it does nothing.
fn main(rt: HostRuntime) -> Result<()> {
    let mut words = env::args(&rt)?;
    let _program = words.next();
    let Some(name) = words.next() else {
        return Ok(());
    };
    match name.as_str() {
        "scripts" => return scripts::run(&rt),
        "replay" => return replays::run(&rt),
        "reads" => return reads::run(&rt),
        "deaths" => return deaths::run(&rt),
        "faults" => return faults::run(&rt),
        "look" => return looks::run(&rt),
        _ => {}
    }
    let place = words
        .next()
        .context("which file, how many threads, or how many lines?")?;
    let times = words
        .next()
        .context("how often?")?
        .parse::<u32>()
        .context("how often?")?;
    if let Some(work) = RoomWork::named(name.as_str()) {
        let threads = place.parse::<u32>().context("how many threads?")?;
        let start = Instant::now(&rt)?;
        room::run(&rt, rt.alloc(), work, threads, times)?;
        let nanoseconds = start.elapsed(&rt)?.as_nanos();
        println!(rt; "{name} {threads} {times} {nanoseconds}")?;
        return Ok(());
    }
    if name.as_str() == "transcript" {
        let lines = place.parse::<u32>().context("how many lines?")?;
        let count = transcripts::count_of(lines);
        let nanoseconds = transcripts::fastest_round(&rt, lines, times)?;
        println!(rt; "{name} {lines} {count} {nanoseconds}")?;
        return Ok(());
    }
    let Some(work) = Work::named(name.as_str()) else {
        bail!("no such work");
    };
    let bytes = fs::read(&rt, place.as_str())?;
    let nanoseconds = timed(&rt, work, &bytes, times)?;
    let len = bytes.len();
    println!(rt; "{name} {len} {times} {nanoseconds}")?;
    Ok(())
}

fn timed(rt: &HostRuntime, work: Work, bytes: &[u8], times: u32) -> Result<u128> {
    let alloc = rt.alloc();
    let map = settings_of(alloc, bytes)?;
    let start = Instant::now(rt)?;
    for _ in 0..times {
        let _ = black_box(work.once(alloc, bytes, &map)?);
    }
    Ok(start.elapsed(rt)?.as_nanos())
}

fn settings_of(alloc: Global, bytes: &[u8]) -> Result<PrefMap> {
    match PrefsCodec.decode(alloc, bytes)? {
        Decoded::Good(map) => Ok(map),
        Decoded::Corrupt => bail!("the file holds no settings"),
    }
}
