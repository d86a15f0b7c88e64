//! How long a script takes to replay, for the failures that are planned in it.
use crate::replays::nanoseconds;
use anyhow::Result;
use std::alloc::{AllocError, Global};

/// How many updates a script has.
const UPDATES: u32 = 30_000;

/// How many failures are planned.
const FAULTS: u32 = 60_000;

/// How many rounds there are, of which the fastest counts.
const ROUNDS: u32 = 9;

/// Prints how many nanoseconds 30,000 updates took, and how many beside 60,000 planned failures, of which none strikes, or
/// of which half do. Their rounds take turns, so that other work of the machine meets all.
pub fn run(rt: &HostRuntime) -> Result<()> {
    let alloc = rt.alloc();
    let sound = script(alloc, 0, 0)?;
    let spared = script(alloc, FAULTS, UPDATES)?;
    let struck = script(alloc, FAULTS, 0)?;
    let mut without = u128::MAX;
    let mut beside = u128::MAX;
    let mut among = u128::MAX;
    for _ in 0..ROUNDS {
        without = without.min(nanoseconds(rt, sound.as_bytes(), 1)?);
        beside = beside.min(nanoseconds(rt, spared.as_bytes(), 1)?);
        among = among.min(nanoseconds(rt, struck.as_bytes(), 1)?);
    }
    println!(rt; "faults none {UPDATES} {without}")?;
    println!(rt; "faults spared {UPDATES} {beside}")?;
    println!(rt; "faults struck {UPDATES} {among}")?;
    Ok(())
}

/// A script of updates. Behind so many calls that go well, so many syncs of the folder are to fail, the last one first.
fn script(alloc: Global, faults: u32, spared: u32) -> Result<String, AllocError> {
    let mut lines = String::new(alloc);
    let mut number = u64::from(spared) + u64::from(faults);
    for _fault in 0..faults {
        let line = format!(in alloc; "fault sync_folder {number}\n")?;
        lines.push_str(line.as_str())?;
        number = number.saturating_sub(1);
    }
    behind(alloc, lines.as_str())
}

/// These lines, and behind them updates that two clients of two nodes make by turns.
pub fn behind(alloc: Global, lines: &str) -> Result<String, AllocError> {
    let mut text = String::from_str(alloc, "node n1\nnode n2\nclient a on n1\nclient b on n2\n")?;
    text.push_str(lines)?;
    for update in 0..UPDATES {
        let client = if update % 2 == 0 { "a" } else { "b" };
        let key = update / 2 % 10;
        let line = format!(in alloc; "{client} update addint \"k{key}\" 1\n")?;
        text.push_str(line.as_str())?;
    }
    Ok(text)
}
