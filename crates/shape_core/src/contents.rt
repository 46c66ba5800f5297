//! What a structure keeps of its entries, so that no look-up walks them.

ghost use Rattle.std.specs.Prelude.{◌≡◌, ◌∷◌, ◌++◌, [], List, OnOk};
ghost use Rattle.shape_core.specs.Shape as pure;
ghost use Rattle.shape_core.specs.declared.shared.SharedEntry.{SharedEntry};
ghost use Rattle.shape_core.specs.Node.{entries_of};
ghost use Rattle.shape_core.specs.Looks as looks;
ghost use Rattle.shape_core.specs.Contents.{HasContents};
ghost use Rattle.rotor_base.specs.declared.looks.Watch.{Watch};

use crate::declarations::Declarations;
use crate::index::{Index, LookSpot};
use crate::shared::SharedEntry;
use rotor_base::{Memory, Place};
use std::alloc::Global;

/// The index of a list, and its declarations.
pub struct Contents {
    pub index: Index,
    pub declarations: Declarations,
}

impl Drop for Contents {
    fn drop(self) {
        let Contents {
            index: _,
            declarations: _,
        } = self;
    }
}

impl Contents {
    /// The contents of the empty list.
    pub fn new(alloc: Global) -> Self
        ensures { HasContents result [] }
    {
        Contents {
            index: Index::new(alloc),
            declarations: Declarations::new(alloc),
        }
    }

    /// Takes in an entry at the end of the list. `Memory` is the only error. What the contents are after it is left
    /// open.
    pub fn add(&mut self, alloc: Global, entry: &SharedEntry) -> Result<(), Memory>
        requires { (list : List SharedEntry) × HasContents self.old list }
        ensures { OnOk result ((list : List SharedEntry) → HasContents self.old list → HasContents self.new (list ++ entry.now ∷ [])) }
    {
        let (position, darks) = self.index.end();
        self.declarations.add(entry, position, darks)?;
        self.index.add(alloc, entry)
    }

    /// The last value of the list whose goal is among some declarations. It costs a look-up for each declaration.
    pub fn last_member(&self, decls: &[Place]) -> Option<LookSpot>
        ensures { (list : List SharedEntry) (w : Watch) → HasContents self.now list → w.foot.decls ≡ decls.now → result ≡ looks.last_where (looks.in_foot w) (entries_of list) }
    {
        let (darks, _) = self.index.darks();
        self.declarations.last_member(decls, darks)
    }
}
