ghost use Rattle.std.specs.Prelude.{◌≡◌, ◌∷◌, ◌++◌, [], OnOk, OnErr};

use crate::PrefName;
use std::alloc::{AllocError, Global};
use std::marker::Model;

/// Names of sections. Clauses see them as a list.
#[derive(Drop)]
pub struct Sections {
    names: Vec<PrefName>,
}

impl Model for Sections {
    ghost use Rattle.std.specs.Prelude.{List, ℕ};

    ghost Value = { List (List ℕ) };

    ghost view = { λ sections. sections.names.items };
}

impl Sections {
    /// No name. It takes no memory.
    pub fn new(alloc: Global) -> Sections
        ensures { result ≡ [] }
    {
        Sections {
            names: Vec::new(alloc),
        }
    }

    /// Adds a name at the end.
    pub fn push(&mut self, name: PrefName) -> Result<(), AllocError>
        ensures ok { OnOk result (self.new ≡ self.old ++ name ∷ []) }
        ensures err { OnErr result (self.new ≡ self.old) }
    {
        self.names.push(name)?;
        Ok(())
    }

    pub fn names(&self) -> &[PrefName]
        ensures { result.now ≡ self.now }
    {
        &self.names
    }
}
