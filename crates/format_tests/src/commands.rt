//! The words of a command, and what they ask for.
use command_words::{Command, asked};
use prefs_text::value_text;
use std::alloc::{AllocError, Global};

const NOTHING: &str = "nothing";

fn set_words(alloc: Global, key: &str, value: &str) -> Result<String, AllocError> {
    format!(in alloc; "set <{key}> {value}")
}

fn shown(alloc: Global, command: &Command) -> Result<String, AllocError> {
    match command {
        Command::Set { key, value } => {
            set_words(alloc, key.as_str(), value_text(alloc, value)?.as_str())
        }
        Command::Get { key } => format!(in alloc; "get <{}>", key.as_str()),
        Command::Remove { key } => format!(in alloc; "remove <{}>", key.as_str()),
        Command::Show => String::from_str(alloc, "show"),
        Command::Replay => String::from_str(alloc, "replay"),
    }
}

/// What the words ask for, as one text.
fn answer(alloc: Global, words: &[String]) -> Result<String, AllocError> {
    match asked(alloc, words)? {
        Some(command) => shown(alloc, &command),
        None => String::from_str(alloc, NOTHING),
    }
}

/// The words that stand between single spaces.
fn words_of(alloc: Global, line: &str) -> Result<Vec<String>, AllocError> {
    let mut words = Vec::new(alloc);
    for word in line.split(' ') {
        words.push(String::from_str(alloc, word)?)?;
    }
    Ok(words)
}

fn asks(alloc: Global, line: &str, told: &str) -> Option<bool> {
    let words = words_of(alloc, line).ok()?;
    Some(answer(alloc, words.as_slice()).ok()?.as_str() == told)
}

fn holds(alloc: Global, row: &str) -> Option<bool> {
    let (line, told) = row.split_once('|')?;
    asks(alloc, line, told)
}

/// Lines whose words stand between single spaces, and what they ask for.
const LINES: [&str; 50] = [
    "set volume int 5|set <volume> int 5",
    "set m int -- -1|set <m> int -1",
    "set m int -1|nothing",
    "set -- m int -1|set <m> int -1",
    "set -- -k int 5|set <-k> int 5",
    "set -k int 5|nothing",
    "set m long -- -9223372036854775808|set <m> long -9223372036854775808",
    "set m int 2147483648|nothing",
    "set m int 05|nothing",
    "set m int +5|nothing",
    "set m int|nothing",
    "set m int 5 6|nothing",
    "set k bool true|set <k> bool true",
    "set k bool True|nothing",
    "set f float 7fc00001|set <f> float 7fc00001",
    "set f float 7FC00001|nothing",
    "set f float 7fc0001|nothing",
    "set d double 7ff8000000000001|set <d> double 7ff8000000000001",
    r#"set k text a|set <k> text "a""#,
    r#"set k text |set <k> text """#,
    "set k text|nothing",
    r#"set k text -- --|set <k> text "--""#,
    r#"set k -- text --|set <k> text "--""#,
    "set k text -- -- --|nothing",
    "set k texts|set <k> texts []",
    "set k texts --|set <k> texts []",
    r#"set k texts b a b|set <k> texts ["a","b"]"#,
    r#"set k texts b -- -- a|set <k> texts ["--","a","b"]"#,
    "set k number 5|nothing",
    "set k Int 5|nothing",
    "set  int 5|set <> int 5",
    "set|nothing",
    "set --help|nothing",
    "get volume|get <volume>",
    "get |get <>",
    "get -- --help|get <--help>",
    "get --help|nothing",
    "get|nothing",
    "get a b|nothing",
    "remove volume|remove <volume>",
    "remove -h|nothing",
    "show|show",
    "show x|nothing",
    "show --|nothing",
    "replay|replay",
    "replay x|nothing",
    "replay --|nothing",
    "Replay|nothing",
    "import a|nothing",
    "Show|nothing",
];

#[test]
fn lines_ask(rt: HostRuntime) {
    for row in &LINES {
        assert_eq!(rt; holds(rt.alloc(), row), Some(true), "{row}");
    }
}

const HELP: [&str; 7] = ["", "help", "--help", "-h", "-V", "help set", "-- show"];

fn no_words_ask_nothing(alloc: Global) -> Option<bool> {
    Some(answer(alloc, &[]).ok()?.as_str() == NOTHING)
}

#[test]
fn help_is_no_command(rt: HostRuntime) {
    for line in &HELP {
        assert_eq!(rt; asks(rt.alloc(), line, NOTHING), Some(true), "{line}");
    }
    assert_eq!(rt; no_words_ask_nothing(rt.alloc()), Some(true));
}

fn key_asks_nothing(alloc: Global, len: usize) -> Option<bool> {
    let key = "k".repeat(alloc, len).ok()?;
    let line = format!(in alloc; "get {key}").ok()?;
    asks(alloc, line.as_str(), NOTHING)
}

#[test]
fn keys_have_at_most_1024_bytes(rt: HostRuntime) {
    assert_eq!(rt; key_asks_nothing(rt.alloc(), 1024), Some(false));
    assert_eq!(rt; key_asks_nothing(rt.alloc(), 1025), Some(true));
}
