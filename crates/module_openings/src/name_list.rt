//! Names in their order, with a look-up that does not walk them.
ghost use Rattle.std.specs.Prelude.{◌≡◌, ◌++◌, ◌∷◌, [], OnOk};
ghost use Rattle.module_openings.specs.Names.{is_among};

use name_tables::Names;
use rotor_base::{Memory, Name};
use std::alloc::Global;
use std::marker::Model;

/// Names in their order. Contracts see it as their list.
#[derive(Drop)]
pub(crate) struct NameList {
    names: Vec<Name>,
    table: Names<bool>,
}

impl Model for NameList {
    ghost use Rattle.std.specs.Prelude.{List, ℕ};
    ghost use Rattle.module_openings.specs.NameLists.{HasNames};

    ghost Value = { List (List ℕ) };

    ghost view = { λ list. list.names.items };

    ghost invariant = { λ list. HasNames list.table list.names.items };
}

impl NameList {
    /// No names.
    pub(crate) fn new(alloc: Global) -> Self
        ensures { result ≡ [] }
    {
        NameList {
            names: Vec::new(alloc),
            table: Names::new(alloc),
        }
    }

    /// Whether a name is one of these.
    pub(crate) fn contains(&self, name: &[u8]) -> bool
        ensures { result ≡ is_among self.now name.now }
    {
        self.table.get(name).is_some()
    }

    /// Adds a name behind the others.
    pub(crate) fn push(&mut self, alloc: Global, name: &[u8]) -> Result<(), Memory>
        ensures { OnOk result (self.new ≡ self.old ++ name.now ∷ []) }
    {
        self.names.push(Name::new(alloc, name)?)?;
        match self.table.put(alloc, name, true) {
            Ok(_) => Ok(()),
            Err(failed) => {
                self.names.pop();
                Err(failed)
            }
        }
    }
}
