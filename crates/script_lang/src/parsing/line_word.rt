ghost use Rattle.std.specs.Prelude.{◌≡◌, ◌≢◌, IfSome, IfNone};

/// A word that begins a line.
#[derive(Clone, Copy, Debug, PartialEq, Eq)]
pub enum LineWord {
    File,
    History,
    Handler,
    Legacy,
    Migrate,
    Node,
    Client,
    Fault,
    Fuse,
    Die,
    Go,
    Stop,
}

impl LineWord {
    ghost use Rattle.script_lang.specs.declared.parsing.line_word.LineWord.{LineWord};
    ghost use Rattle.script_lang.specs.LineWord.{line_word};

    /// The line word that is spelled so.
    pub(crate) fn from_name(word: &str) -> Option<LineWord>
        ensures some { IfSome result (λ found. word.now ≡ line_word found) }
        ensures none { IfNone result ((other : LineWord) → word.now ≢ line_word other) }
    {
        match word {
            "file" => Some(LineWord::File),
            "history" => Some(LineWord::History),
            "handler" => Some(LineWord::Handler),
            "legacy" => Some(LineWord::Legacy),
            "migrate" => Some(LineWord::Migrate),
            "node" => Some(LineWord::Node),
            "client" => Some(LineWord::Client),
            "fault" => Some(LineWord::Fault),
            "fuse" => Some(LineWord::Fuse),
            "die" => Some(LineWord::Die),
            "go" => Some(LineWord::Go),
            "stop" => Some(LineWord::Stop),
            _ => None,
        }
    }
}
