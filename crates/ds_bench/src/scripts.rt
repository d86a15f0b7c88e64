//! How long a script takes to read, for the number of its lines.
use anyhow::Result;
use script_lang::{Mode, parse_script};
use std::alloc::{AllocError, Global};
use std::hint::black_box;
use std::time::Instant;

/// A script has one node and this many clients before the lines that they follow.
const CLIENTS: u32 = 64;

/// Prints how many nanoseconds a script of 10,000 lines took, and one of 100,000.
pub fn run(rt: &HostRuntime) -> Result<()> {
    let shorter = nanoseconds(rt, 10_000)?;
    let longer = nanoseconds(rt, 100_000)?;
    println!(rt; "script 10000 {shorter}")?;
    println!(rt; "script 100000 {longer}")?;
    Ok(())
}

/// How long it takes to read a script of so many lines.
fn nanoseconds(rt: &HostRuntime, lines: u32) -> Result<u128> {
    let alloc = rt.alloc();
    let text = script(alloc, lines)?;
    let start = Instant::now(rt)?;
    let _ = black_box(parse_script(alloc, text.as_bytes(), Mode::Replay)?);
    Ok(start.elapsed(rt)?.as_nanos())
}

/// A script of so many lines: names, and then calls and steps of each client in turn.
fn script(alloc: Global, lines: u32) -> Result<String, AllocError> {
    let mut text = String::from_str(alloc, "node n\n")?;
    for client in 0..CLIENTS {
        text.push_str(format!(in alloc; "client c{client} on n\n")?.as_str())?;
    }
    for line in CLIENTS + 1..lines {
        let client = line % CLIENTS;
        text.push_str(follow(alloc, client, line % 2 == 0)?.as_str())?;
    }
    Ok(text)
}

/// A line that the client follows.
fn follow(alloc: Global, client: u32, steps: bool) -> Result<String, AllocError> {
    if steps {
        format!(in alloc; "go c{client} 3\n")
    } else {
        format!(in alloc; "c{client} update many addint \"k\" 1 ; set \"t\" text \"some text\"\n")
    }
}
