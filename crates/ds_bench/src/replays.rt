//! How long a script takes to replay, for the number of its updates.
use anyhow::Result;
use replay_run::replay;
use script_lang::{Mode, parse_script};
use std::alloc::{AllocError, Global};
use std::hint::black_box;
use std::time::Instant;

/// How many updates are done in a round, in one script or in several.
const ROUND_UPDATES: u32 = 20_000;

/// How many rounds there are, of which the fastest counts.
const ROUNDS: u32 = 15;

/// Prints how many nanoseconds 20 scripts of 1,000 updates took, and one of 20,000.
/// Their rounds take turns, so that other work of the machine meets both.
pub fn run(rt: &HostRuntime) -> Result<()> {
    let alloc = rt.alloc();
    let short = script(alloc, 1_000)?;
    let long = script(alloc, ROUND_UPDATES)?;
    let mut shorter = u128::MAX;
    let mut longer = u128::MAX;
    for _ in 0..ROUNDS {
        shorter = shorter.min(nanoseconds(rt, short.as_bytes(), ROUND_UPDATES / 1_000)?);
        longer = longer.min(nanoseconds(rt, long.as_bytes(), 1)?);
    }
    println!(rt; "replay 1000 {ROUND_UPDATES} {shorter}")?;
    println!(rt; "replay {ROUND_UPDATES} {ROUND_UPDATES} {longer}")?;
    Ok(())
}

/// How long it takes to replay the script so many times. The transcripts are kept to the end, so that a round goes over as
/// much memory whatever the length of its scripts.
pub fn nanoseconds(rt: &HostRuntime, text: &[u8], times: u32) -> Result<u128> {
    let alloc = rt.alloc();
    let script = parse_script(alloc, text, Mode::Replay)?;
    let mut transcripts = Vec::with_capacity(alloc, times as usize)?;
    let start = Instant::now(rt)?;
    for _ in 0..times {
        transcripts.push(black_box(replay(alloc, &script)?))?;
    }
    Ok(start.elapsed(rt)?.as_nanos())
}

/// A script of so many updates, which two clients of two nodes make by turns: each adds 1 to one of ten keys, and does
/// a few steps, between which the other takes its own.
fn script(alloc: Global, updates: u32) -> Result<String, AllocError> {
    let mut text = String::from_str(alloc, "node n1\nnode n2\nclient a on n1\nclient b on n2\n")?;
    for update in 0..updates {
        let client = if update % 2 == 0 { "a" } else { "b" };
        let key = update / 2 % 10;
        let lines = format!(in alloc; "{client} update addint \"k{key}\" 1\ngo {client} 5\n")?;
        text.push_str(lines.as_str())?;
    }
    Ok(text)
}
