//! Cases as data: it reads a case from each line of standard input, runs its command over devices in memory, and prints
//! a line that begins with the case's name. It stands on `prefs_tool`, whose `run_tool` does the commands, and on
//! `byte_io` and `folder_disk` for the devices. Its stored run, `stdin` and `stdout`, is the table of cases.
#![tactic(auto)]

mod case;
mod outcome;

use anyhow::{Context, Result};
use case::Case;
use outcome::outcome_of;
use std::alloc::Global;
use std::io::{BufRead, BufReader};

fn main(rt: HostRuntime) -> Result<()> {
    let alloc = rt.alloc();
    for line in BufReader::new(alloc, rt.reader())?.lines(alloc) {
        println!(rt; "{}", told(alloc, &line?)?)?;
    }
    Ok(())
}

/// The line that tells what comes of the case.
fn told(alloc: Global, line: &str) -> Result<String> {
    let case: Case = serde_json::from_str(alloc, line).context("a line is no case")?;
    let outcome = outcome_of(alloc, &case)?;
    Ok(format!(in alloc; "{}: {outcome}", case.name)?)
}
