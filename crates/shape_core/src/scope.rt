//! Scopes: lists of entries that grow at their end and are cut back.

ghost use Rattle.std.specs.Prelude.{◌≡◌, ◌≤◌, [], ◌∷◌, ◌++◌, IfOk, OnOk, OnErr, length, take, option_copied, slice_get};
ghost use Rattle.shape_core.specs.Items.{items_of};
ghost use Rattle.shape_core.specs.Looks as looks;
ghost use Rattle.shape_core.specs.Shape as pure;
ghost use Rattle.shape_core.specs.Node.{entries_of};
ghost use Rattle.shape_core.specs.Places.{HasPlaces};
ghost use Rattle.rotor_base.specs.declared.looks.Watch.{Watch};

use crate::index::LookSpot;
use crate::joins::{count_both, last_of_both, see_both};
use crate::opened::OpenedEntries;
use crate::own::OwnEntries;
use crate::part::Part;
use crate::parts::{
    cut_last, darks_in_parts, entry_in, last_member_in, last_value_in, module_in, module_type_in,
    seen_in,
};
use crate::shared::{Shared, SharedEntry, entries};
use crate::sharing::share_again;
use rotor_base::{Goal, Memory, Place};
use std::alloc::Global;
use std::collections::BTreeSet;
use std::marker::Model;
use std::mem::replace;

/// A scope copies the entries of a structure that has no more than these.
const FEW_ENTRIES: usize = 64;

/// A scope shares no more opened structures than these, since a look-up asks each of them.
const MOST_PARTS: usize = 64;

/// A scope. Contracts see it as the list of its entries. A look-up does not walk the list, also behind many pushes and
/// cuts: it asks the index of each part, from the last part back.
pub struct Scope {
    alloc: Global,
    parts: Vec<Part>,
    // The number of the entries of the parts.
    number: usize,
    last: OwnEntries,
}

impl Drop for Scope {
    fn drop(self) {
        let Scope {
            alloc: _,
            parts: _,
            number: _,
            last: _,
        } = self;
    }
}

impl Model for Scope {
    ghost use Rattle.std.specs.Prelude.{List, ◌++◌};
    ghost use Rattle.shape_core.specs.declared.shared.SharedEntry.{SharedEntry};
    ghost use Rattle.std.specs.Coded.{coded_list};
    ghost use Rattle.shape_core.specs.contracts.shared.SharedEntry.{the_row};

    ghost Value = { List SharedEntry };

    ghost coded = { coded_list the_row.coded };

    ghost use Rattle.shape_core.specs.Parts.{parts_list, IsCounted};

    ghost view = { λ s. parts_list s.parts.items ++ s.last };

    ghost invariant = { λ s. IsCounted s.number s.parts.items s.last };
}

impl Scope {
    /// The empty scope. `Memory` is the only error.
    pub fn new(alloc: Global) -> Result<Scope, Memory>
        ensures { IfOk result (λ scope. scope ≡ []) }
    {
        Ok(Scope {
            alloc,
            parts: Vec::new(alloc),
            number: 0,
            last: OwnEntries::new(alloc),
        })
    }

    /// Adds an entry at the end. An `Err` changes nothing.
    pub fn push(&mut self, entry: SharedEntry) -> Result<(), Memory>
        ensures pushed { OnOk result (self.new ≡ self.old ++ entry ∷ []) }
        ensures kept { OnErr result (self.new ≡ self.old) }
    {
        if self.len() == usize::MAX {
            return Err(Memory);
        }
        self.last.push(entry)
    }

    /// Adds the entries of a structure at the end, and nothing for another shape. An `Err` changes nothing. If the
    /// entries are many, the scope shares the structure and copies none of them, up to a number of such structures.
    ///
    /// # Errors
    ///
    /// `Memory` alone.
    pub fn open_shape(&mut self, shape: Shared) -> Result<(), Memory>
        ensures opened { OnOk result (self.new ≡ self.old ++ items_of (pure.entries_in shape)) }
        ensures kept { OnErr result (self.new ≡ self.old) }
    {
        if entries(&shape).len() > FEW_ENTRIES && self.parts.len() < MOST_PARTS {
            return self.share(shape);
        }
        self.extend(entries(&shape))
    }

    /// Adds the entries of a structure as a part that is shared.
    fn share(&mut self, shape: Shared) -> Result<(), Memory>
        ensures opened { OnOk result (self.new ≡ self.old ++ items_of (pure.entries_in shape)) }
        ensures kept { OnErr result (self.new ≡ self.old) }
    {
        let opened = OpenedEntries::all(shape);
        let Some(number) = self.len().checked_add(opened.len()) else {
            return Err(Memory);
        };
        let own = replace(&mut self.last, OwnEntries::new(self.alloc));
        match self.parts.push(Part { own, opened }) {
            Ok(()) => {
                self.number = number;
                Ok(())
            }
            Err(failed) => {
                self.last = failed.value.into_own();
                Err(Memory)
            }
        }
    }

    /// Adds entries at the end; their shapes are shared and not copied. An `Err` changes nothing. `Memory` is the only
    /// error.
    pub fn extend(&mut self, list: &[SharedEntry]) -> Result<(), Memory>
        ensures added { OnOk result (self.new ≡ self.old ++ list.now) }
        ensures kept { OnErr result (self.new ≡ self.old) }
    {
        let len = self.len();
        match self.push_all(list) {
            Ok(()) => Ok(()),
            Err(failed) => {
                self.cut(len);
                Err(failed)
            }
        }
    }

    /// Adds entries at the end. Also after an `Err` the scope begins as it was.
    fn push_all(&mut self, list: &[SharedEntry]) -> Result<(), Memory>
        ensures added { OnOk result (self.new ≡ self.old ++ list.now) }
        ensures front { take (length self.old) self.new ≡ self.old }
        ensures long { length self.old ≤ length self.new }
    {
        for entry in list {
            self.push(share_again(self.alloc, entry)?)?;
        }
        Ok(())
    }

    /// The number of entries. It takes no memory.
    pub fn len(&self) -> usize
        ensures { result ≡ length self.now }
    {
        self.number + self.last.len()
    }

    /// The entry at a position. It takes no memory.
    pub fn get(&self, at: usize) -> Option<&SharedEntry>
        ensures { option_copied result ≡ slice_get self.now at }
    {
        if at < self.number {
            entry_in(&self.parts, self.number, at)
        } else {
            self.last.get(at - self.number)
        }
    }

    /// Keeps the first `len` entries. It costs a look-up for each entry that goes, but one step for all those of a
    /// shared structure. It takes no memory.
    pub fn cut(&mut self, len: usize)
        requires { len ≤ length self.old }
        ensures { self.new ≡ take len self.old }
    {
        while self.number > len {
            let (own, number) = cut_last(self.alloc, &mut self.parts, self.number, len);
            self.last = own;
            self.number = number;
        }
        self.last.cut(len - self.number);
    }

    /// The last value whose goal is among some declarations, of which the caller has the set. It looks at each entry
    /// once after it was pushed, if the declarations are those of the call before.
    ///
    /// # Errors
    ///
    /// `Memory` alone.
    pub fn last_member(
        &mut self,
        decls: &[Place],
        set: &BTreeSet<Place>,
    ) -> Result<Option<LookSpot>, Memory>
        requires { HasPlaces decls.now set.now }
        ensures found { IfOk result (λ spot. (w : Watch) → w.foot.decls ≡ decls.now → spot ≡ looks.last_where (looks.in_foot w) (entries_of self.old)) }
        ensures kept { self.new ≡ self.old }
    {
        let later = self.last.last_member(decls, set)?;
        let earlier = match later {
            Some(_) => None,
            None => {
                let count = self.parts.len();
                last_member_in(&mut self.parts, count, self.number, decls, set)?
            }
        };
        Ok(last_of_both(earlier, later, self.number, self.last.darks().0))
    }
}

/// The goal that a look-up of a value gives, as [`crate::find_val`] does. It takes no memory.
pub fn val_in(scope: &Scope, name: &[u8]) -> Option<Goal>
    ensures { result ≡ pure.find_val (entries_of scope.now) name.now }
{
    let seen = scope.last.seen(name);
    if seen.found.is_some() {
        return seen.goal();
    }
    see_both(seen_in(&scope.parts, name), seen).goal()
}

/// The shape of the last module of that name. It takes no memory.
pub fn mod_in<'a>(scope: &'a Scope, name: &[u8]) -> Option<&'a Shared>
    ensures { option_copied result ≡ pure.find_mod (entries_of scope.now) name.now }
{
    match scope.last.module(name) {
        Some(shape) => Some(shape),
        None => module_in(&scope.parts, name),
    }
}

/// The shape of the last module type of that name. It takes no memory.
pub fn mty_in<'a>(scope: &'a Scope, name: &[u8]) -> Option<&'a Shared>
    ensures { option_copied result ≡ pure.find_mty (entries_of scope.now) name.now }
{
    match scope.last.module_type(name) {
        Some(shape) => Some(shape),
        None => module_type_in(&scope.parts, name),
    }
}

/// The number of Dark entries of a scope, and the place of the last one. It takes no memory.
pub fn darks_in(scope: &Scope) -> (u64, Option<Place>)
    ensures number { result.0 ≡ length (pure.darks (entries_of scope.now)) }
    ensures last { result.1 ≡ pure.last_place (pure.darks (entries_of scope.now)) }
{
    count_both(darks_in_parts(&scope.parts), scope.last.darks())
}

/// The last value of a name: its position in the scope, its declaration, and the number of Dark entries after it. It
/// takes no memory.
pub fn last_val_in(scope: &Scope, name: &[u8]) -> Option<LookSpot>
    ensures { result ≡ looks.last_where (looks.of_name name.now) (entries_of scope.now) }
{
    let later = scope.last.last_val(name);
    let earlier = match later {
        Some(_) => None,
        None => last_value_in(&scope.parts, scope.number, name),
    };
    last_of_both(earlier, later, scope.number, scope.last.darks().0)
}
