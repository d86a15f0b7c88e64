ghost use Rattle.std.specs.Prelude.{◌≡◌, map};
ghost use Rattle.prefs_text.specs.AnswerView.{line_seen};

use prefs_text::AnswerLine;
use std::marker::Model;

/// Answers in order. Clauses see the list of them, with values in place of their owners.
#[derive(Drop)]
pub struct AnswerList {
    lines: Vec<AnswerLine>,
}

impl Model for AnswerList {
    ghost use Rattle.std.specs.Prelude.{List, map};
    ghost use Rattle.prefs_text.specs.declared.seen.AnswerLineSeen.{AnswerLineSeen};
    ghost use Rattle.prefs_text.specs.AnswerView.{line_seen};

    ghost Value = { List AnswerLineSeen };

    ghost view = { λ list. map line_seen list.lines.items };
}

impl AnswerList {
    /// Takes no memory.
    pub fn new(lines: Vec<AnswerLine>) -> AnswerList
        ensures { result ≡ map line_seen lines.items }
    {
        AnswerList { lines }
    }

    pub fn lines(&self) -> &[AnswerLine]
        ensures { map line_seen result.now ≡ self.now }
    {
        &self.lines
    }

    /// Takes no memory.
    pub fn into_vec(self) -> Vec<AnswerLine>
        ensures { map line_seen result.items ≡ self }
    {
        self.lines
    }
}
