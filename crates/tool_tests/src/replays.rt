//! Scripts and what is printed of them, also where a source or a sink fails.
use crate::command::{folder_of, sink_of, source_of, status_of};
use crate::endless::Endless;
use byte_io::{MemSink, Source};
use folder_disk::MainRead;
use std::alloc::{AllocError, Global};

/// The second node is blocked until the first is through.
const TWO_NODES: &str = "\
node n1
node n2
client a on n1
client b on n2
a update addint \"x\" 1
b update addint \"x\" 1
go a 5
go b 1
";

const TWO_NODES_RUN: &str = "\
session 1
base {}
a 1 updated 1
b 1 updated 2
entry 1 a 1 inited n1
entry 2 a 1 raise
entry 3 a 1 edit addint \"x\" 1
entry 4 a 1 synced
entry 5 b 1 inited n2
entry 6 b 1 raise
entry 7 b 1 edit addint \"x\" 1
entry 8 b 1 synced
file 0a070a017812021802
";

/// The value is there already.
const EQUAL_VALUE: &str = "\
file 0a070a016b12021801
node n1
client a on n1
a update set \"k\" int 1
";

const EQUAL_VALUE_RUN: &str = "\
session 1
base {\"k\" int 1}
a 1 updated 0
entry 1 a 1 inited n1
entry 2 a 1 same set \"k\" int 1
entry 3 a 1 synced
file 0a070a016b12021801
";

/// The second edit would pass the greatest number.
const BOUNDARY: &str = "\
node n1
client a on n1
a update set \"n\" int 2147483647
a update addint \"n\" 1
";

const BOUNDARY_RUN: &str = "\
session 1
base {}
a 1 updated 1
a 2 refused 2 1
entry 1 a 1 inited n1
entry 2 a 1 raise
entry 3 a 1 edit set \"n\" int 2147483647
entry 4 a 1 synced
file 0a0b0a016e120618ffffffff07
";

/// How `replay` of the source ends, and what the sink has then.
fn replayed<S: Source>(alloc: Global, source: &mut S, failing: &str) -> Option<(u8, MemSink)> {
    let mut sink = sink_of(alloc, failing)?;
    let mut folder = folder_of(alloc, MainRead::Absent, failing)?;
    let status = status_of(alloc, "replay", source, &mut sink, &mut folder)?;
    Some((status, sink))
}

/// Whether `replay` of the script has this status and prints this, where this read or write fails.
fn replays(
    alloc: Global,
    (failing, script): (&str, &str),
    (status, printed): (u8, &str),
) -> Option<bool> {
    let mut source = source_of(alloc, script.as_bytes(), failing)?;
    let (found, sink) = replayed(alloc, &mut source, failing)?;
    Some(found == status && sink.held() == printed.as_bytes())
}

fn is_run(alloc: Global, script: &str, run: &str) -> bool {
    replays(alloc, ("", script), (0, run)) == Some(true)
}

#[test]
fn scripts_print_their_runs(rt: HostRuntime) {
    let alloc = rt.alloc();
    assert!(rt; is_run(alloc, TWO_NODES, TWO_NODES_RUN));
    assert!(rt; is_run(alloc, EQUAL_VALUE, EQUAL_VALUE_RUN));
    assert!(rt; is_run(alloc, BOUNDARY, BOUNDARY_RUN));
    assert!(rt; is_run(alloc, "", "session 1\nbase {}\nfile none\n"));
}

const RENAME_FAILS_RUN: &str = "\
session 1
base {}
a 1 storagefault 3
a 2 updated 1
entry 1 a 1 inited n1
entry 2 a 1 raise
entry 3 a 1 fault folder 1
entry 4 a 2 raise
entry 5 a 2 edit set \"k\" int 2
entry 6 a 2 synced
file 0a070a016b12021802
";

/// Whether failures that never come, and one that is planned two thousand times, are one failure.
fn strike_once(alloc: Global) -> Option<bool> {
    let never = "fault rename 4294967295\n".repeat(alloc, 2000).ok()?;
    let twice = "fault rename 1\n".repeat(alloc, 2000).ok()?;
    let updates = "a update set \"k\" int 1\na update set \"k\" int 2\n";
    let script = format!(in alloc; "node n1\nclient a on n1\n{never}{twice}{updates}").ok()?;
    Some(is_run(alloc, script.as_str(), RENAME_FAILS_RUN))
}

#[test]
fn a_failure_planned_many_times_strikes_once(rt: HostRuntime) {
    assert_eq!(rt; strike_once(rt.alloc()), Some(true));
}

/// Whether `replay` tells this of the first faulty line.
fn is_told(alloc: Global, script: &str, told: &str) -> bool {
    replays(alloc, ("", script), (2, told)) == Some(true)
}

#[test]
fn the_first_faulty_line_is_told(rt: HostRuntime) {
    let alloc = rt.alloc();
    assert!(rt; is_told(alloc, "node n1\nnode n1\n", "error: line 2 nametaken\n"));
    assert!(rt; is_told(alloc, "jump\n", "error: line 1 unknownword\n"));
}

/// A script with as many clients.
fn clients(alloc: Global, count: u32) -> Result<String, AllocError> {
    let mut script = String::from_str(alloc, "node n1\n")?;
    for number in 0..count {
        script.push_str(format!(in alloc; "client c{number} on n1\n")?.as_str())?;
    }
    Ok(script)
}

#[test]
fn the_65th_client_is_told(rt: HostRuntime) -> Result<(), AllocError> {
    let script = clients(rt.alloc(), 65)?;
    assert!(rt; is_told(rt.alloc(), script.as_str(), "error: line 66 toomanynames\n"));
    Ok(())
}

#[test]
fn one_line_may_be_too_long(rt: HostRuntime) -> Result<(), AllocError> {
    let script = "#".repeat(rt.alloc(), 4097)?;
    assert!(rt; is_told(rt.alloc(), script.as_str(), "error: line 1 linetoolong\n"));
    Ok(())
}

fn has_no_end(alloc: Global) -> Option<bool> {
    let (status, sink) = replayed(alloc, &mut Endless, "")?;
    Some(status == 2 && sink.held() == b"error: script too long\n".as_slice())
}

#[test]
fn a_script_without_an_end_is_told(rt: HostRuntime) {
    assert_eq!(rt; has_no_end(rt.alloc()), Some(true));
}

/// Whether `replay` of the faulty line `jump` ends so, where this read or write fails.
fn ends(alloc: Global, failing: &str, status: u8, printed: &str) -> bool {
    replays(alloc, (failing, "jump"), (status, printed)) == Some(true)
}

#[test]
fn a_source_that_fails_is_told(rt: HostRuntime) {
    let alloc = rt.alloc();
    // The first read gives the bytes, and the second finds the end.
    assert!(rt; ends(alloc, "read 1", 6, "error: read\n"));
    assert!(rt; ends(alloc, "read 2", 6, "error: read\n"));
    assert!(rt; ends(alloc, "read 3", 2, "error: line 1 unknownword\n"));
}

#[test]
fn a_sink_that_fails_at_a_line_has_its_front(rt: HostRuntime) {
    let alloc = rt.alloc();
    // The line is written in three pieces.
    assert!(rt; ends(alloc, "write 1", 7, ""));
    assert!(rt; ends(alloc, "write 2", 7, "error: line "));
    assert!(rt; ends(alloc, "write 3", 7, "error: line 1"));
    assert!(rt; ends(alloc, "write 4", 2, "error: line 1 unknownword\n"));
}

fn sink_stands_over_source(alloc: Global) -> Option<bool> {
    let mut source = source_of(alloc, b"jump", "read 1")?;
    let (status, sink) = replayed(alloc, &mut source, "write 1")?;
    Some(status == 7 && sink.held().is_empty())
}

#[test]
fn a_sink_stands_over_a_source(rt: HostRuntime) {
    assert_eq!(rt; sink_stands_over_source(rt.alloc()), Some(true));
}

/// What is printed of 200 updates by one client, where this write fails.
fn updates(alloc: Global, failing: &str) -> Option<(u8, MemSink)> {
    let lines = "a update addint \"x\" 1\n".repeat(alloc, 200).ok()?;
    let script = format!(in alloc; "node n\nclient a on n\n{lines}").ok()?;
    let mut source = source_of(alloc, script.as_bytes(), failing)?;
    replayed(alloc, &mut source, failing)
}

/// Whether a sink that fails at this write has a front of the whole.
fn has_front(alloc: Global, failing: &str, whole: &[u8]) -> Option<bool> {
    let (status, sink) = updates(alloc, failing)?;
    let is_shorter = sink.held().len() < whole.len();
    Some(status == 7 && is_shorter && whole.starts_with(sink.held()))
}

fn has_fronts(alloc: Global) -> Option<bool> {
    let (status, whole) = updates(alloc, "")?;
    // A run of 200 updates is written in five pieces at least.
    for failing in ["write 1", "write 2", "write 3", "write 4", "write 5"] {
        if !has_front(alloc, failing, whole.held())? {
            return Some(false);
        }
    }
    Some(status == 0)
}

#[test]
fn a_sink_that_fails_has_a_front_of_the_run(rt: HostRuntime) {
    assert_eq!(rt; has_fronts(rt.alloc()), Some(true));
}
