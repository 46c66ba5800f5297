//! Entries of a structure that a scope shares.

ghost use Rattle.std.specs.Prelude.{◌≡◌, ◌≤◌, true, length, take, option_copied, slice_get};
ghost use Rattle.shape_core.specs.Items.{items_of};
ghost use Rattle.shape_core.specs.Looks as looks;
ghost use Rattle.shape_core.specs.Shape as pure;
ghost use Rattle.shape_core.specs.Node.{entries_of};
ghost use Rattle.shape_core.specs.Parts.{opened_list};
ghost use Rattle.shape_core.specs.Places.{HasPlaces};
ghost use Rattle.shape_core.specs.View.{Sees};
ghost use Rattle.rotor_base.specs.declared.looks.Watch.{Watch};

use crate::index::LookSpot;
use crate::listed::{
    darks_among, last_member_among, last_val_among, module_among, module_type_among, seen_among,
};
use crate::shape::Seen;
use crate::shared::{
    Shared, SharedEntry, darks_of, entries, last_member_of, last_val_of, mod_of, mty_of, seen_of,
};
use rotor_base::Place;
use std::collections::BTreeSet;

/// The first `len` entries of a structure, or all of them if it has fewer. A look-up in all asks the index of the
/// structure.
pub struct OpenedEntries {
    pub shape: Shared,
    pub len: usize,
}

impl Drop for OpenedEntries {
    fn drop(self) {
        let OpenedEntries { shape: _, len: _ } = self;
    }
}

impl OpenedEntries {
    /// All entries of a structure.
    pub fn all(shape: Shared) -> Self
        ensures { opened_list result ≡ items_of (pure.entries_in shape) }
    {
        let len = entries(&shape).len();
        OpenedEntries { shape, len }
    }

    /// The entries in order.
    pub fn list(&self) -> &[SharedEntry]
        ensures { result.now ≡ opened_list self.now }
    {
        let list = entries(&self.shape);
        &list[..self.len.min(list.len())]
    }

    /// Whether these are all entries of the structure.
    fn are_all(&self) -> bool
        ensures { result ≡ true → entries_of (opened_list self.now) ≡ pure.entries_in self.now.shape }
    {
        entries(&self.shape).len() <= self.len
    }

    /// The number of entries.
    pub fn len(&self) -> usize
        ensures { result ≡ length (opened_list self.now) }
    {
        self.list().len()
    }

    /// The entry at a position.
    pub fn get(&self, at: usize) -> Option<&SharedEntry>
        ensures { option_copied result ≡ slice_get (opened_list self.now) at }
    {
        self.list().get(at)
    }

    /// Keeps the first `len` entries.
    pub fn cut(&mut self, len: usize)
        requires { len ≤ length (opened_list self.old) }
        ensures { opened_list self.new ≡ take len (opened_list self.old) }
    {
        self.len = len;
    }

    /// What a look-up of a value sees.
    pub fn seen(&self, name: &[u8]) -> Seen
        ensures { Sees (entries_of (opened_list self.now)) name.now result }
    {
        if self.are_all() {
            seen_of(&self.shape, name)
        } else {
            seen_among(self.list(), name)
        }
    }

    /// The shape of the last module of that name.
    pub fn module<'a>(&'a self, name: &[u8]) -> Option<&'a Shared>
        ensures { option_copied result ≡ pure.find_mod (entries_of (opened_list self.now)) name.now }
    {
        if self.are_all() {
            mod_of(&self.shape, name)
        } else {
            module_among(self.list(), name)
        }
    }

    /// The shape of the last module type of that name.
    pub fn module_type<'a>(&'a self, name: &[u8]) -> Option<&'a Shared>
        ensures { option_copied result ≡ pure.find_mty (entries_of (opened_list self.now)) name.now }
    {
        if self.are_all() {
            mty_of(&self.shape, name)
        } else {
            module_type_among(self.list(), name)
        }
    }

    /// The number of Dark entries, and the place of the last one.
    pub fn darks(&self) -> (u64, Option<Place>)
        ensures number { result.0 ≡ length (pure.darks (entries_of (opened_list self.now))) }
        ensures last { result.1 ≡ pure.last_place (pure.darks (entries_of (opened_list self.now))) }
    {
        if self.are_all() {
            darks_of(&self.shape)
        } else {
            darks_among(self.list())
        }
    }

    /// The last value of a name.
    pub fn last_val(&self, name: &[u8]) -> Option<LookSpot>
        ensures { result ≡ looks.last_where (looks.of_name name.now) (entries_of (opened_list self.now)) }
    {
        if self.are_all() {
            last_val_of(&self.shape, name)
        } else {
            last_val_among(self.list(), name)
        }
    }

    /// The last value whose goal is among some declarations, of which the caller has the set.
    pub fn last_member(&self, decls: &[Place], set: &BTreeSet<Place>) -> Option<LookSpot>
        requires { HasPlaces decls.now set.now }
        ensures { (w : Watch) → w.foot.decls ≡ decls.now → result ≡ looks.last_where (looks.in_foot w) (entries_of (opened_list self.now)) }
    {
        if self.are_all() {
            last_member_of(&self.shape, decls)
        } else {
            last_member_among(self.list(), set)
        }
    }
}
