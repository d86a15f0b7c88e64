//! The program: it takes the words behind its name, standard input and output, and the current folder, and ends
//! with the status. It stands on `prefs_tool`, whose `run_tool` does all the work, on `byte_io` for the real source
//! and sink, and on `folder_disk` for the real folder.
#![tactic(auto)]

use byte_io::{StdSink, StdSource};
use folder_disk::StdFolder;
use prefs_tool::{Status, run_tool};
use std::process::ExitCode;
use std::{env, io};

fn main(rt: HostRuntime) -> ExitCode {
    ExitCode::from(run(rt).code())
}

fn run(rt: HostRuntime) -> Status {
    let alloc = rt.alloc();
    let words = match words(&rt) {
        Ok(words) => words,
        // A word that is no text is no word of a command, and no more is none.
        Err(error) if error.kind() == io::ErrorKind::InvalidData => Vec::new(alloc),
        Err(_) => return Status::NoMemory,
    };
    let mut source = StdSource::new(rt.stdin());
    let mut sink = StdSink::new(rt.stdout());
    run_tool(
        alloc,
        &words,
        &mut source,
        &mut sink,
        &mut StdFolder::new(rt),
    )
}

/// The words behind the program's name.
fn words(rt: &HostRuntime) -> io::Result<Vec<String>> {
    Ok(env::args(rt)?.skip(1).collect(rt.alloc())?)
}
