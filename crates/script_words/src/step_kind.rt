ghost use Rattle.std.specs.Prelude.{◌≡◌, ◌≢◌, IfSome, IfNone};

/// The kind of a step of an edit.
#[derive(Clone, Copy, Debug, PartialEq, Eq)]
pub enum StepKind {
    Set,
    Remove,
    Clear,
    AddInt,
    AddLong,
    Toggle,
    InsertText,
    RemoveText,
    Require,
}

impl StepKind {
    ghost use Rattle.script_words.specs.declared.step_kind.StepKind.{StepKind};
    ghost use Rattle.script_words.specs.StepKind.{step_word};

    /// The kind that the word names.
    pub fn from_name(word: &str) -> Option<StepKind>
        ensures some { IfSome result (λ kind. word.now ≡ step_word kind) }
        ensures none { IfNone result ((kind : StepKind) → word.now ≢ step_word kind) }
    {
        match word {
            "set" => Some(StepKind::Set),
            "remove" => Some(StepKind::Remove),
            "clear" => Some(StepKind::Clear),
            "addint" => Some(StepKind::AddInt),
            "addlong" => Some(StepKind::AddLong),
            "toggle" => Some(StepKind::Toggle),
            "insert" => Some(StepKind::InsertText),
            "erase" => Some(StepKind::RemoveText),
            "require" => Some(StepKind::Require),
            _ => None,
        }
    }
}
