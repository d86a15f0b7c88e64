ghost use Rattle.std.specs.Prelude.{◌↔◌, IsTrue, Contains};
ghost use Rattle.script_words.specs.Names.{IsName, reserved};

/// How many bytes a name has at the most.
const MAX_NAME_LEN: usize = 16;

/// Whether the word has the form of a name: a letter from a to z, and up to 15 letters from a to z or digits.
pub fn is_name(word: &str) -> bool
    ensures { IsTrue result ↔ IsName word.now }
{
    match word.as_bytes() {
        [first, others @ ..] => {
            first.is_ascii_lowercase()
                && others.len() < MAX_NAME_LEN
                && others
                    .iter()
                    .all(|byte| byte.is_ascii_lowercase() || byte.is_ascii_digit())
        }
        [] => false,
    }
}

/// The words that stand in the tables of a script's lines: those that begin a line or say more in it, the calls of a
/// client, and the calls of the devices.
const RESERVED: [&str; 29] = [
    "file",
    "empty",
    "none",
    "history",
    "handler",
    "legacy",
    "migrate",
    "copy",
    "rename",
    "node",
    "client",
    "on",
    "fault",
    "fuse",
    "die",
    "go",
    "stop",
    "update",
    "read",
    "flow",
    "post",
    "restart",
    "read_main",
    "create",
    "append",
    "sync",
    "sync_folder",
    "legacy_read",
    "legacy_clear",
];

/// Whether the word stands in the tables of lines, so that nothing can be named by it.
pub fn is_reserved(word: &str) -> bool
    ensures { IsTrue result ↔ Contains reserved word.now }
{
    RESERVED.iter().any(|taken| *taken == word)
}
