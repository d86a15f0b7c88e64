//! How long a script takes to replay, for the number of its reads.
use crate::replays::nanoseconds;
use anyhow::Result;
use std::alloc::{AllocError, Global};

/// How many reads are done in a round, in one script or in several.
const ROUND_READS: u32 = 20_000;

/// How many rounds there are, of which the fastest counts.
const ROUNDS: u32 = 15;

/// Prints how many nanoseconds 20 scripts of 1,000 reads took, four of 5,000, and one of 20,000.
/// Their rounds take turns, so that other work of the machine meets all.
pub fn run(rt: &HostRuntime) -> Result<()> {
    let alloc = rt.alloc();
    let short = script(alloc, 1_000)?;
    let middle = script(alloc, 5_000)?;
    let long = script(alloc, ROUND_READS)?;
    let mut shorter = u128::MAX;
    let mut between = u128::MAX;
    let mut longer = u128::MAX;
    for _ in 0..ROUNDS {
        shorter = shorter.min(nanoseconds(rt, short.as_bytes(), ROUND_READS / 1_000)?);
        between = between.min(nanoseconds(rt, middle.as_bytes(), ROUND_READS / 5_000)?);
        longer = longer.min(nanoseconds(rt, long.as_bytes(), 1)?);
    }
    println!(rt; "reads 1000 {ROUND_READS} {shorter}")?;
    println!(rt; "reads 5000 {ROUND_READS} {between}")?;
    println!(rt; "reads {ROUND_READS} {ROUND_READS} {longer}")?;
    Ok(())
}

/// A script of so many reads, which two clients of two nodes make by turns, behind an update of the first.
fn script(alloc: Global, reads: u32) -> Result<String, AllocError> {
    let names = "node n1\nnode n2\nclient a on n1\nclient b on n2\n";
    let mut text = String::from_str(alloc, names)?;
    text.push_str("a update set \"k\" int 1\n")?;
    for read in 0..reads {
        let line = if read % 2 == 0 {
            "a read\n"
        } else {
            "b read\n"
        };
        text.push_str(line)?;
    }
    Ok(text)
}
