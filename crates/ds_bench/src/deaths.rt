//! How long a script takes to replay, for the deaths that are planned in it.
use crate::faults::behind;
use crate::replays::nanoseconds;
use anyhow::Result;
use std::alloc::{AllocError, Global};

/// How many calls of each client a death is planned for.
const CALLS: u32 = 15_000;

/// How many rounds there are, of which the fastest counts.
const ROUNDS: u32 = 9;

/// Prints how many nanoseconds 30,000 updates took, alone and beside 60,000 planned deaths, two for each call, at steps that
/// it does not reach; and 16 scripts in which a node dies a thousand times, and one in which it does so 16,000 times. Their
/// rounds take turns, so that other work of the machine meets all.
pub fn run(rt: &HostRuntime) -> Result<()> {
    let alloc = rt.alloc();
    let sound = behind(alloc, "")?;
    let spared = behind(alloc, planned(alloc)?.as_str())?;
    let few = deadly(alloc, 1_000)?;
    let many = deadly(alloc, 16_000)?;
    let mut without = u128::MAX;
    let mut beside = u128::MAX;
    let mut shorter = u128::MAX;
    let mut longer = u128::MAX;
    for _ in 0..ROUNDS {
        without = without.min(nanoseconds(rt, sound.as_bytes(), 1)?);
        beside = beside.min(nanoseconds(rt, spared.as_bytes(), 1)?);
        shorter = shorter.min(nanoseconds(rt, few.as_bytes(), 16)?);
        longer = longer.min(nanoseconds(rt, many.as_bytes(), 1)?);
    }
    println!(rt; "deaths none 30000 {without}")?;
    println!(rt; "deaths spared 30000 {beside}")?;
    println!(rt; "deaths 16x1000 16000 {shorter}")?;
    println!(rt; "deaths 1x16000 16000 {longer}")?;
    Ok(())
}

/// Lines that plan deaths at steps of a handler, which no update of these scripts reaches.
fn planned(alloc: Global) -> Result<String, AllocError> {
    let mut text = String::new(alloc);
    for call in 1..=CALLS {
        let lines = format!(in alloc;
            "die a {call} P1\ndie b {call} P2\ndie b {call} P1\ndie a {call} P2\n"
        )?;
        text.push_str(lines.as_str())?;
    }
    Ok(text)
}

/// A script in which a node dies so many times in an update, and is brought back each time.
fn deadly(alloc: Global, deaths: u32) -> Result<String, AllocError> {
    let mut text = String::from_str(alloc, "node n1\nnode n2\nclient a on n1\nclient b on n2\n")?;
    for call in 1..=deaths {
        let lines = format!(in alloc;
            "die a {call} U6\na update addint \"k\" 1\ngo a 11\nb restart n1\ngo b 1\n"
        )?;
        text.push_str(lines.as_str())?;
    }
    Ok(text)
}
