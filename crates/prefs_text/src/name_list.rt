ghost use Rattle.std.specs.Prelude.{◌≡◌};

use hist_journal::PrefName;
use std::marker::Model;

/// Names in order. Clauses see them as a list.
#[derive(Drop)]
pub struct NameList {
    names: Vec<PrefName>,
}

impl Model for NameList {
    ghost use Rattle.std.specs.Prelude.{List, ℕ};

    ghost Value = { List (List ℕ) };

    ghost view = { λ list. list.names.items };
}

impl NameList {
    /// Takes no memory.
    pub fn new(names: Vec<PrefName>) -> NameList
        ensures { result ≡ names.items }
    {
        NameList { names }
    }

    pub fn names(&self) -> &[PrefName]
        ensures { result.now ≡ self.now }
    {
        &self.names
    }

    /// Takes no memory.
    pub fn into_vec(self) -> Vec<PrefName>
        ensures { result.items ≡ self }
    {
        self.names
    }
}
