//! A part of a scope: entries of its own, and an opened structure behind them.

ghost use Rattle.std.specs.Prelude.{◌≡◌, ◌<◌, ◌^◌, IfOk, length, option_copied, slice_get};
ghost use Rattle.shape_core.specs.Looks as looks;
ghost use Rattle.shape_core.specs.Shape as pure;
ghost use Rattle.shape_core.specs.Node.{entries_of};
ghost use Rattle.shape_core.specs.Parts.{part_list};
ghost use Rattle.shape_core.specs.Places.{HasPlaces};
ghost use Rattle.shape_core.specs.View.{Sees};
ghost use Rattle.rotor_base.specs.declared.looks.Watch.{Watch};

use crate::index::LookSpot;
use crate::joins::{count_both, last_of_both, see_both};
use crate::opened::OpenedEntries;
use crate::own::OwnEntries;
use crate::shape::Seen;
use crate::shared::{Shared, SharedEntry};
use rotor_base::{Memory, Place};
use std::collections::BTreeSet;

/// Entries that a scope holds itself, and the entries of an opened structure behind them.
pub struct Part {
    pub own: OwnEntries,
    pub opened: OpenedEntries,
}

impl Drop for Part {
    fn drop(self) {
        let Part { own: _, opened: _ } = self;
    }
}

impl Part {
    /// The entries before the opened structure.
    pub fn into_own(self) -> OwnEntries
        ensures { result ≡ self.own }
    {
        let Part { own, opened: _ } = self;
        own
    }

    /// The number of entries.
    pub fn len(&self) -> usize
        requires { length (part_list self.now) < 2 ^ 64 }
        ensures { result ≡ length (part_list self.now) }
    {
        self.own.len() + self.opened.len()
    }

    /// The entry at a position.
    pub fn get(&self, at: usize) -> Option<&SharedEntry>
        ensures { option_copied result ≡ slice_get (part_list self.now) at }
    {
        let len = self.own.len();
        if at < len {
            self.own.get(at)
        } else {
            self.opened.get(at - len)
        }
    }

    /// What a look-up of a value sees.
    pub fn seen(&self, name: &[u8]) -> Seen
        requires { length (part_list self.now) < 2 ^ 64 }
        ensures { Sees (entries_of (part_list self.now)) name.now result }
    {
        let seen = self.opened.seen(name);
        if seen.found.is_some() {
            return seen;
        }
        see_both(self.own.seen(name), seen)
    }

    /// The shape of the last module of that name.
    pub fn module<'a>(&'a self, name: &[u8]) -> Option<&'a Shared>
        ensures { option_copied result ≡ pure.find_mod (entries_of (part_list self.now)) name.now }
    {
        match self.opened.module(name) {
            Some(shape) => Some(shape),
            None => self.own.module(name),
        }
    }

    /// The shape of the last module type of that name.
    pub fn module_type<'a>(&'a self, name: &[u8]) -> Option<&'a Shared>
        ensures { option_copied result ≡ pure.find_mty (entries_of (part_list self.now)) name.now }
    {
        match self.opened.module_type(name) {
            Some(shape) => Some(shape),
            None => self.own.module_type(name),
        }
    }

    /// The number of Dark entries, and the place of the last one.
    pub fn darks(&self) -> (u64, Option<Place>)
        requires { length (part_list self.now) < 2 ^ 64 }
        ensures number { result.0 ≡ length (pure.darks (entries_of (part_list self.now))) }
        ensures last { result.1 ≡ pure.last_place (pure.darks (entries_of (part_list self.now))) }
    {
        count_both(self.own.darks(), self.opened.darks())
    }

    /// The last value of a name.
    pub fn last_val(&self, name: &[u8]) -> Option<LookSpot>
        requires { length (part_list self.now) < 2 ^ 64 }
        ensures { result ≡ looks.last_where (looks.of_name name.now) (entries_of (part_list self.now)) }
    {
        let later = self.opened.last_val(name);
        let earlier = match later {
            Some(_) => None,
            None => self.own.last_val(name),
        };
        last_of_both(earlier, later, self.own.len(), self.opened.darks().0)
    }

    /// The last value whose goal is among some declarations, of which the caller has the set. `Memory` is the only
    /// error.
    pub fn last_member(
        &mut self,
        decls: &[Place],
        set: &BTreeSet<Place>,
    ) -> Result<Option<LookSpot>, Memory>
        requires places { HasPlaces decls.now set.now }
        requires few { length (part_list self.old) < 2 ^ 64 }
        ensures found { IfOk result (λ spot. (w : Watch) → w.foot.decls ≡ decls.now → spot ≡ looks.last_where (looks.in_foot w) (entries_of (part_list self.old))) }
        ensures kept { self.new ≡ self.old }
    {
        let later = self.opened.last_member(decls, set);
        let earlier = match later {
            Some(_) => None,
            None => self.own.last_member(decls, set)?,
        };
        Ok(last_of_both(earlier, later, self.own.len(), self.opened.darks().0))
    }
}
