//! Scripts, and what others are refused for.
use folder_disk::MainRead;
use script_lang::{Act, Mode, parse_script};
use std::alloc::{AllocError, Global};
use store_traits::{ClientId, NodeId};

/// What is told of a script that has a faulty line, one of each kind; a bar; and the script.
const FAULTY: [&str; 5] = [
    "line 1: an unknown word|jump",
    "line 1: a bad value|node",
    "line 3: an unknown name|node n1\nclient a on n1\nb update clear",
    "line 2: the name is taken|node n1\nnode n1",
    "line 4: the line is in a wrong place|node n1\nclient a on n1\na update clear\nnode n2",
];

/// Each of these is one.
const SCRIPTS: [&str; 7] = [
    "",
    "\n",
    "# node\n\n#\n",
    "node n1",
    "file none\nhistory 100000\nnode n1\nnode n2\nclient a on n2\nclient b on n1\ngo a 0\ngo b 1000\n",
    "node n1\nclient a on n1\na read\na update clear\ngo a 7\na read",
    "node n1\nclient once on n1\nonce update set \"a b\" texts [\"x\", \"y ; z\"]",
];

/// What is told of these bytes.
fn told(alloc: Global, script: &[u8], mode: Mode) -> Result<String, AllocError> {
    match parse_script(alloc, script, mode) {
        Ok(_) => String::from_str(alloc, "a script"),
        Err(error) => format!(in alloc; "{error}"),
    }
}

/// Whether that is this text.
fn tells(alloc: Global, script: &[u8], mode: Mode, text: &str) -> bool {
    match told(alloc, script, mode) {
        Ok(told) => told.as_str() == text,
        Err(_) => false,
    }
}

fn holds(alloc: Global, row: &str) -> bool {
    match row.split_once('|') {
        Some((text, script)) => tells(alloc, script.as_bytes(), Mode::Replay, text),
        None => false,
    }
}

#[test]
fn the_first_faulty_line_is_told_with_its_least_fault(rt: HostRuntime) {
    for row in &FAULTY {
        assert!(rt; holds(rt.alloc(), row), "{row}");
    }
}

#[test]
fn these_are_scripts(rt: HostRuntime) {
    for script in &SCRIPTS {
        assert!(rt;
            tells(rt.alloc(), script.as_bytes(), Mode::Replay, "a script"),
            "{script}"
        );
    }
}

#[test]
fn all_bytes_are_text(rt: HostRuntime) {
    let script = b"node n1\n# \xff\n";
    assert!(rt; tells(rt.alloc(), script, Mode::Replay, "line 2: not UTF-8"));
}

#[test]
fn by_nodes_the_file_is_there_already(rt: HostRuntime) {
    let text = "line 1: the line is in a wrong place";
    assert!(rt; tells(rt.alloc(), b"file none", Mode::Nodes, text));
}

/// Whether this is told of so many of the byte.
fn repeated_tells(alloc: Global, byte: u8, count: usize, text: &str) -> bool {
    match vec![in alloc; byte; count] {
        Ok(script) => tells(alloc, &script, Mode::Replay, text),
        Err(_) => false,
    }
}

#[test]
fn a_line_has_at_most_4096_bytes(rt: HostRuntime) {
    assert!(rt; repeated_tells(rt.alloc(), b'#', 4_096, "a script"));
}

#[test]
fn a_longer_line_is_refused(rt: HostRuntime) {
    assert!(rt; repeated_tells(rt.alloc(), b'#', 4_097, "line 1: the line is too long"));
}

#[test]
fn a_script_has_at_most_100000_lines(rt: HostRuntime) {
    assert!(rt; repeated_tells(rt.alloc(), b'\n', 100_000, "a script"));
}

#[test]
fn the_next_line_is_refused(rt: HostRuntime) {
    assert!(rt; repeated_tells(rt.alloc(), b'\n', 100_001, "line 100001: too many lines"));
}

/// One node, and this many clients of it.
fn clients(alloc: Global, count: u32) -> Result<String, AllocError> {
    let mut script = String::from_str(alloc, "node n\n")?;
    for number in 0..count {
        script.push_str("client c")?;
        script.push_str(format!(in alloc; "{number}")?.as_str())?;
        script.push_str(" on n\n")?;
    }
    Ok(script)
}

fn clients_tell(alloc: Global, count: u32, text: &str) -> bool {
    match clients(alloc, count) {
        Ok(script) => tells(alloc, script.as_bytes(), Mode::Replay, text),
        Err(_) => false,
    }
}

#[test]
fn a_script_has_at_most_64_clients(rt: HostRuntime) {
    assert!(rt; clients_tell(rt.alloc(), 64, "a script"));
}

#[test]
fn the_next_client_is_refused(rt: HostRuntime) {
    assert!(rt; clients_tell(rt.alloc(), 65, "line 66: too many names"));
}

/// What the tests below look into.
const SCRIPT: &[u8] =
    b"file 0aff\nhistory 7\nnode m\nnode n\nclient a on n\nclient b on m\nb update clear\na read\ngo a 3\n";

fn are_named(alloc: Global) -> Option<bool> {
    let script = parse_script(alloc, SCRIPT, Mode::Replay).ok()?;
    let homes = [NodeId(1), NodeId(0)];
    Some(
        script.names.nodes.names().len() == 2
            && script.names.clients.names().len() == 2
            && script.homes.as_slice() == homes.as_slice(),
    )
}

#[test]
fn names_and_homes_are_those_declared(rt: HostRuntime) {
    assert_eq!(rt; are_named(rt.alloc()), Some(true));
}

fn starts_so(alloc: Global) -> Option<bool> {
    let script = parse_script(alloc, SCRIPT, Mode::Replay).ok()?;
    let MainRead::Bytes(bytes) = &script.start.file else {
        return None;
    };
    Some(script.start.entries == 7 && bytes.as_slice() == [0x0a, 0xff].as_slice())
}

#[test]
fn the_start_is_what_the_lines_say(rt: HostRuntime) {
    assert_eq!(rt; starts_so(rt.alloc()), Some(true));
}

fn is_one_session(alloc: Global) -> Option<bool> {
    let script = parse_script(alloc, b"", Mode::Replay).ok()?;
    Some(
        script.sessions.as_slice().len() == 1
            && script.start.entries == 100_000
            && matches!(&script.start.file, MainRead::Absent),
    )
}

#[test]
fn an_empty_script_is_one_session(rt: HostRuntime) {
    assert_eq!(rt; is_one_session(rt.alloc()), Some(true));
}

fn are_in_order(alloc: Global) -> Option<bool> {
    let script = parse_script(alloc, SCRIPT, Mode::Replay).ok()?;
    let [session] = script.sessions.as_slice() else {
        return None;
    };
    let [first, second, third] = session.lines.as_slice() else {
        return None;
    };
    Some(
        first.client == ClientId(1)
            && matches!(&first.act, Act::Update(_))
            && second.client == ClientId(0)
            && matches!(&second.act, Act::Read)
            && third.client == ClientId(0)
            && matches!(&third.act, Act::Go(3)),
    )
}

#[test]
fn lines_are_kept_in_order(rt: HostRuntime) {
    assert_eq!(rt; are_in_order(rt.alloc()), Some(true));
}
