//! Entries that a scope holds itself.

ghost use Rattle.std.specs.Prelude.{◌≡◌, ◌≤◌, [], ◌∷◌, ◌++◌, IfOk, OnOk, OnErr, length, take, option_copied, slice_get};
ghost use Rattle.shape_core.specs.Looks as looks;
ghost use Rattle.shape_core.specs.Shape as pure;
ghost use Rattle.shape_core.specs.Node.{entries_of};
ghost use Rattle.shape_core.specs.Places.{HasPlaces};
ghost use Rattle.shape_core.specs.View.{Sees};
ghost use Rattle.rotor_base.specs.declared.looks.Watch.{Watch};

use crate::index::{Index, LookSpot};
use crate::members::Members;
use crate::shape::Seen;
use crate::shared::{Shared, SharedEntry};
use rotor_base::{Memory, Place};
use std::alloc::Global;
use std::collections::BTreeSet;
use std::marker::Model;

/// Entries of a scope, indexed by name, with the members of a footprint that were asked for. Contracts see them as a
/// list. A look-up does not walk the list, also behind many pushes and cuts.
pub struct OwnEntries {
    alloc: Global,
    entries: Vec<SharedEntry>,
    index: Index,
    members: Members,
}

impl Drop for OwnEntries {
    fn drop(self) {
        let OwnEntries {
            alloc: _,
            entries: _,
            index: _,
            members: _,
        } = self;
    }
}

impl Model for OwnEntries {
    ghost use Rattle.std.specs.Prelude.{List};
    ghost use Rattle.shape_core.specs.declared.shared.SharedEntry.{SharedEntry};
    ghost use Rattle.std.specs.Coded.{coded_list};
    ghost use Rattle.shape_core.specs.contracts.shared.SharedEntry.{the_row};

    ghost Value = { List SharedEntry };

    ghost coded = { coded_list the_row.coded };

    ghost use Rattle.shape_core.specs.Index.{IsIndexOf};
    ghost use Rattle.shape_core.specs.Members.{HasMembers};

    ghost view = { λ s. s.entries.items };

    ghost invariant = { λ s. IsIndexOf s.index s.entries.items × HasMembers s.members s.entries.items };
}

impl OwnEntries {
    /// No entries.
    pub fn new(alloc: Global) -> Self
        ensures { result ≡ [] }
    {
        OwnEntries {
            alloc,
            entries: Vec::new(alloc),
            index: Index::new(alloc),
            members: Members::new(alloc),
        }
    }

    /// Adds an entry at the end. An `Err` changes nothing.
    pub fn push(&mut self, entry: SharedEntry) -> Result<(), Memory>
        ensures pushed { OnOk result (self.new ≡ self.old ++ entry ∷ []) }
        ensures kept { OnErr result (self.new ≡ self.old) }
    {
        self.index.add(self.alloc, &entry)?;
        match self.entries.push(entry) {
            Ok(()) => Ok(()),
            Err(failed) => {
                self.index.take_out(&failed.value);
                Err(Memory)
            }
        }
    }

    /// The number of entries.
    pub fn len(&self) -> usize
        ensures { result ≡ length self.now }
    {
        self.entries.len()
    }

    /// The entry at a position.
    pub fn get(&self, at: usize) -> Option<&SharedEntry>
        ensures { option_copied result ≡ slice_get self.now at }
    {
        self.entries.get(at)
    }

    /// Keeps the first `len` entries. It costs a look-up for each entry that goes, and takes no memory.
    pub fn cut(&mut self, len: usize)
        requires { len ≤ length self.old }
        ensures { self.new ≡ take len self.old }
    {
        while self.entries.len() > len {
            if let Some(entry) = self.entries.pop() {
                self.index.take_out(&entry);
                self.members.take_out(&entry, self.entries.len());
            }
        }
    }

    /// What a look-up of a value sees.
    pub fn seen(&self, name: &[u8]) -> Seen
        ensures { Sees (entries_of self.now) name.now result }
    {
        self.index.seen(name)
    }

    /// The shape of the last module of that name.
    pub fn module<'a>(&'a self, name: &[u8]) -> Option<&'a Shared>
        ensures { option_copied result ≡ pure.find_mod (entries_of self.now) name.now }
    {
        self.index.module(&self.entries, name)
    }

    /// The shape of the last module type of that name.
    pub fn module_type<'a>(&'a self, name: &[u8]) -> Option<&'a Shared>
        ensures { option_copied result ≡ pure.find_mty (entries_of self.now) name.now }
    {
        self.index.module_type(&self.entries, name)
    }

    /// The number of Dark entries, and the place of the last one.
    pub fn darks(&self) -> (u64, Option<Place>)
        ensures number { result.0 ≡ length (pure.darks (entries_of self.now)) }
        ensures last { result.1 ≡ pure.last_place (pure.darks (entries_of self.now)) }
    {
        self.index.darks()
    }

    /// The last value of a name.
    pub fn last_val(&self, name: &[u8]) -> Option<LookSpot>
        ensures { result ≡ looks.last_where (looks.of_name name.now) (entries_of self.now) }
    {
        self.index.last_val(name)
    }

    /// The last value whose goal is among some declarations, of which the caller has the set. It looks at each entry
    /// once after it was pushed, if the declarations are those of the call before. `Memory` is the only error.
    pub fn last_member(
        &mut self,
        decls: &[Place],
        set: &BTreeSet<Place>,
    ) -> Result<Option<LookSpot>, Memory>
        requires { HasPlaces decls.now set.now }
        ensures found { IfOk result (λ spot. (w : Watch) → w.foot.decls ≡ decls.now → spot ≡ looks.last_where (looks.in_foot w) (entries_of self.old)) }
        ensures kept { self.new ≡ self.old }
    {
        self.members.turn_to(self.alloc, decls)?;
        self.members.note_all(&self.entries, set)?;
        let (darks, _) = self.index.darks();
        Ok(self.members.find_last(darks))
    }
}
