ghost use Rattle.std.specs.Prelude.{◌≡◌, ◌↔◌, ◌^◌, ◌<◌, [], ◌∷◌, ◌++◌, length, Contains, IsTrue, IfOk};
ghost use Rattle.script_lang.specs.Finding.{Finds};

use hist_journal::PrefName;
use prefs_text::NameList;
use std::alloc::{AllocError, Global};
use std::collections::HashMap;
use std::marker::Model;

/// Names in the order in which they were declared, each found by its text without a walk over all. Clauses see the
/// list of them.
#[derive(Drop)]
pub(crate) struct NameTable {
    names: Vec<PrefName>,
    places: HashMap<String, u32>,
}

impl Model for NameTable {
    ghost use Rattle.std.specs.Prelude.{List, ℕ};

    ghost Value = { List (List ℕ) };

    ghost view = { λ table. table.names.items };

    ghost use Rattle.script_lang.specs.NameTable.{FindsNames};

    ghost invariant = { FindsNames };
}

impl NameTable {
    pub(crate) fn new(alloc: Global) -> NameTable
        ensures { result ≡ [] }
    {
        NameTable {
            names: Vec::new(alloc),
            places: HashMap::new(alloc),
        }
    }

    pub(crate) fn len(&self) -> usize
        ensures { result ≡ length self.now }
    {
        self.names.len()
    }

    /// The place of the name, counted from 0.
    pub(crate) fn find(&self, name: &str) -> Option<u32>
        ensures { Finds self.now name.now result }
    {
        self.places.get(name).copied()
    }

    pub(crate) fn contains(&self, name: &str) -> bool
        ensures { IsTrue result ↔ Contains self.now name.now }
    {
        self.find(name).is_some()
    }

    /// The table with one name more.
    pub(crate) fn with(self, alloc: Global, name: PrefName) -> Result<NameTable, AllocError>
        requires { length self < 2 ^ 32 }
        ensures { IfOk result (λ table. table ≡ self ++ name ∷ []) }
    {
        let NameTable {
            mut names,
            mut places,
        } = self;
        let key = String::from_str(alloc, name.as_str())?;
        let place = names.len() as u32;
        places.insert(key, place)?;
        names.push(name)?;
        Ok(NameTable { names, places })
    }

    /// The names in order. It takes no memory.
    pub(crate) fn into_list(self) -> NameList
        ensures { result ≡ self }
    {
        NameList::new(self.names)
    }
}
