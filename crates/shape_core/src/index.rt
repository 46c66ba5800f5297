//! The position of the last entry of each kind and name in a list of entries.

ghost use Rattle.std.specs.Prelude.{◌≡◌, ℕ, List, [], ◌∷◌, ◌++◌, IfOk, OnOk, OnErr, length, option_copied, slice_get, Some};
ghost use Rattle.shape_core.specs.Shape as pure;
ghost use Rattle.shape_core.specs.declared.shared.SharedEntry.{SharedEntry};
ghost use Rattle.shape_core.specs.Node.{entries_of, and_then};
ghost use Rattle.shape_core.specs.View.{Sees};
ghost use Rattle.shape_core.specs.Looks as looks;
ghost use Rattle.shape_core.specs.Places.{HasPlaces};
ghost use Rattle.rotor_base.specs.declared.looks.Watch.{Watch};
ghost use Rattle.shape_core.specs.Index.{Tells, IsIndexOf, before_of, spot_in, there, mod_at, mty_at, position_is, position_of};

use crate::members::is_among;
use crate::shape::Seen;
use crate::shared::{Shared, SharedEntry};
use name_tables::Names;
use rotor_base::{Goal, Memory, Place};
use std::alloc::Global;
use std::collections::BTreeSet;

/// The last value of a name: its goal, its position, and the number of Dark entries before it.
#[derive(Clone, Copy)]
pub struct Spot {
    pub goal: Goal,
    pub position: usize,
    pub darks: usize,
}

/// A position in a list, the declaration there, and the number of Dark entries after it.
pub type LookSpot = (u64, Place, u64);

/// The place of a declaration, and (0, 0) for another goal.
pub fn place_of(goal: Goal) -> Place
    ensures { result ≡ looks.some_place (pure.decl_of goal) }
{
    match goal {
        Goal::Decl(place) => place,
        _ => Place { file: 0, token: 0 },
    }
}

/// What a list holds by name, and its Dark entries.
pub struct Tables {
    pub vals: Names<Spot>,
    pub mods: Names<usize>,
    pub mtys: Names<usize>,
    pub darks: Vec<Place>,
}

/// What the tables held for an entry's name before the entry.
#[derive(Clone, Copy)]
pub struct Before {
    pub spot: Option<Spot>,
    pub position: Option<usize>,
}

/// The tables of a list, with what each of its entries changed in them, and the positions of its values.
pub struct Index {
    pub tables: Tables,
    pub befores: Vec<Before>,
    pub values: Vec<usize>,
}

impl Drop for Tables {
    fn drop(self) {
        let Tables {
            vals: _,
            mods: _,
            mtys: _,
            darks: _,
        } = self;
    }
}

impl Drop for Index {
    fn drop(self) {
        let Index {
            tables: _,
            befores: _,
            values: _,
        } = self;
    }
}

impl Tables {
    /// Takes in the entry at a position. An `Err` changes nothing that the tables hold.
    fn note(
        &mut self,
        alloc: Global,
        entry: &SharedEntry,
        position: usize,
    ) -> Result<Before, Memory>
        ensures noted { OnOk result ((list : List SharedEntry) → length list ≡ position → Tells self.old list → Tells self.new (list ++ entry.now ∷ [])) }
        ensures before { IfOk result (λ before. (list : List SharedEntry) → Tells self.old list → before ≡ before_of list entry.now) }
        ensures kept { OnErr result ((list : List SharedEntry) → Tells self.old list → Tells self.new list) }
    {
        match entry {
            SharedEntry::Val(x, goal) => {
                let spot = Spot {
                    goal: *goal,
                    position,
                    darks: self.darks.len(),
                };
                let spot = self.vals.put(alloc, x.as_bytes(), spot)?;
                Ok(Before {
                    spot,
                    position: None,
                })
            }
            SharedEntry::Mod(x, _) => {
                let position = self.mods.put(alloc, x.as_bytes(), position)?;
                Ok(Before {
                    spot: None,
                    position,
                })
            }
            SharedEntry::Mty(x, _) => {
                let position = self.mtys.put(alloc, x.as_bytes(), position)?;
                Ok(Before {
                    spot: None,
                    position,
                })
            }
            SharedEntry::Dark(at) => {
                self.darks.push(*at)?;
                Ok(Before {
                    spot: None,
                    position: None,
                })
            }
        }
    }

    /// Takes the last entry out.
    fn forget(&mut self, entry: &SharedEntry, before: Before)
        requires { (list : List SharedEntry) × Tells self.old (list ++ entry.now ∷ []) }
        ensures { (list : List SharedEntry) → Tells self.old (list ++ entry.now ∷ []) → before ≡ before_of list entry.now → Tells self.new list }
    {
        match entry {
            SharedEntry::Val(x, _) => self.vals.set(x.as_bytes(), before.spot),
            SharedEntry::Mod(x, _) => self.mods.set(x.as_bytes(), before.position),
            SharedEntry::Mty(x, _) => self.mtys.set(x.as_bytes(), before.position),
            SharedEntry::Dark(_) => {
                self.darks.pop();
            }
        }
    }
}

impl Index {
    /// The index of the empty list.
    pub fn new(alloc: Global) -> Self
        ensures { IsIndexOf result [] }
    {
        let tables = Tables {
            vals: Names::new(alloc),
            mods: Names::new(alloc),
            mtys: Names::new(alloc),
            darks: Vec::new(alloc),
        };
        Index {
            tables,
            befores: Vec::new(alloc),
            values: Vec::new(alloc),
        }
    }

    /// Takes in an entry at the end of the list. An `Err` leaves the index of the list.
    pub fn add(&mut self, alloc: Global, entry: &SharedEntry) -> Result<(), Memory>
        requires { (list : List SharedEntry) × IsIndexOf self.old list }
        ensures added { OnOk result ((list : List SharedEntry) → IsIndexOf self.old list → IsIndexOf self.new (list ++ entry.now ∷ [])) }
        ensures kept { OnErr result ((list : List SharedEntry) → IsIndexOf self.old list → IsIndexOf self.new list) }
    {
        let position = self.befores.len();
        let before = self.tables.note(alloc, entry, position)?;
        match record(&mut self.befores, &mut self.values, entry, before, position) {
            Ok(()) => Ok(()),
            Err(_) => {
                self.tables.forget(entry, before);
                Err(Memory)
            }
        }
    }

    /// Takes the last entry of the list out.
    pub fn take_out(&mut self, entry: &SharedEntry)
        requires { (list : List SharedEntry) × IsIndexOf self.old (list ++ entry.now ∷ []) }
        ensures { (list : List SharedEntry) → IsIndexOf self.old (list ++ entry.now ∷ []) → IsIndexOf self.new list }
    {
        if let Some(before) = self.befores.pop() {
            take_value_out(&mut self.values, entry);
            self.tables.forget(entry, before);
        }
    }

    /// The shape of the last module of that name in the list.
    pub fn module<'a>(&self, list: &'a [SharedEntry], name: &[u8]) -> Option<&'a Shared>
        requires { IsIndexOf self.now list.now }
        ensures { option_copied result ≡ pure.find_mod (entries_of list.now) name.now }
    {
        module_at(list, self.tables.mods.get(name))
    }

    /// The shape of the last module type of that name in the list.
    pub fn module_type<'a>(&self, list: &'a [SharedEntry], name: &[u8]) -> Option<&'a Shared>
        requires { IsIndexOf self.now list.now }
        ensures { option_copied result ≡ pure.find_mty (entries_of list.now) name.now }
    {
        module_type_at(list, self.tables.mtys.get(name))
    }

    /// Whether no later entry of the list has the kind and name of the entry at a position; false for a Dark entry.
    pub fn is_shown(&self, list: &[SharedEntry], at: usize) -> bool
        requires { IsIndexOf self.now list.now }
        ensures { result ≡ pure.is_shown (pure.entries_from at (entries_of list.now)) }
    {
        match list.get(at) {
            Some(entry) => self.is_entry_shown(entry, at),
            None => false,
        }
    }

    /// The same of the entry at the position.
    fn is_entry_shown(&self, entry: &SharedEntry, at: usize) -> bool
        ensures { (list : List SharedEntry) → IsIndexOf self.now list → slice_get list at ≡ Some entry.now → result ≡ pure.is_shown (pure.entries_from at (entries_of list)) }
    {
        match entry {
            SharedEntry::Val(x, _) => is_spot(self.tables.vals.get(x.as_bytes()), at),
            SharedEntry::Mod(x, _) => is_at(self.tables.mods.get(x.as_bytes()), at),
            SharedEntry::Mty(x, _) => is_at(self.tables.mtys.get(x.as_bytes()), at),
            SharedEntry::Dark(_) => false,
        }
    }

    /// The positions of the values of the list, in order.
    pub fn positions(&self) -> &[usize]
        ensures { (list : List SharedEntry) → IsIndexOf self.now list → result.now ≡ pure.values_from 0 (entries_of list) }
    {
        &self.values
    }

    /// The number of Dark entries of the list, and the place of the last one.
    pub fn darks(&self) -> (u64, Option<Place>)
        ensures number { (list : List SharedEntry) → IsIndexOf self.now list → result.0 ≡ length (pure.darks (entries_of list)) }
        ensures last { (list : List SharedEntry) → IsIndexOf self.now list → result.1 ≡ pure.last_place (pure.darks (entries_of list)) }
    {
        let darks = &self.tables.darks;
        (darks.len() as u64, darks.last().copied())
    }

    /// The last value of a name: its position in the list, its declaration, and the number of Dark entries after it.
    pub fn last_val(&self, name: &[u8]) -> Option<LookSpot>
        ensures { (list : List SharedEntry) → IsIndexOf self.now list → result ≡ looks.last_where (looks.of_name name.now) (entries_of list) }
    {
        let spot = self.tables.vals.get(name)?;
        let after = self.tables.darks.len().saturating_sub(spot.darks);
        Some((spot.position as u64, place_of(spot.goal), after as u64))
    }

    /// The number of entries of the list, and of its Dark entries.
    pub fn end(&self) -> (usize, usize)
        ensures number { (list : List SharedEntry) → IsIndexOf self.now list → result.0 ≡ length list }
        ensures darks { (list : List SharedEntry) → IsIndexOf self.now list → result.1 ≡ length (pure.darks (entries_of list)) }
    {
        let darks = &self.tables.darks;
        (self.befores.len(), darks.len())
    }

    /// The last value of a name whose goal is not among some places. It goes back over the later values of the name.
    pub fn last_other(
        &self,
        list: &[SharedEntry],
        name: &[u8],
        set: &BTreeSet<Place>,
    ) -> Option<LookSpot>
        requires { IsIndexOf self.now list.now }
        ensures { (w : Watch) → w.old ≡ name.now → HasPlaces w.foot.decls set.now → result ≡ looks.last_where (looks.other_old w) (entries_of list.now) }
    {
        let mut left = list.len();
        let mut last = self.tables.vals.get(name);
        while let Some(spot) = last {
            if !is_among(spot.goal, set) {
                let after = self.tables.darks.len().saturating_sub(spot.darks);
                return Some((spot.position as u64, place_of(spot.goal), after as u64));
            }
            left = spot.position;
            last = self.spot_before(left);
        }
        None
    }

    /// The last value that had the name of the value at a position, before that position.
    fn spot_before(&self, position: usize) -> Option<Spot>
        ensures { result ≡ spot_in (slice_get self.now.befores.items position) }
    {
        match self.befores.get(position) {
            Some(before) => before.spot,
            None => None,
        }
    }

    /// What a look-up of a value sees.
    pub fn seen(&self, name: &[u8]) -> Seen
        ensures { (list : List SharedEntry) → IsIndexOf self.now list → Sees (entries_of list) name.now result }
    {
        self.tables.find_seen(name)
    }

    /// What a look-up of a value gives.
    pub fn val(&self, name: &[u8]) -> Option<Goal>
        ensures { (list : List SharedEntry) → IsIndexOf self.now list → result ≡ pure.find_val (entries_of list) name.now }
    {
        self.tables.find_seen(name).goal()
    }
}

/// Adds what an entry changed, and its position if it is a value. An `Err` changes neither list.
fn record(
    befores: &mut Vec<Before>,
    values: &mut Vec<usize>,
    entry: &SharedEntry,
    before: Before,
    position: usize,
) -> Result<(), Memory>
    ensures befores { OnOk result (befores.new.items ≡ befores.old.items ++ before ∷ []) }
    ensures values { OnOk result (values.new.items ≡ values.old.items ++ pure.values_from position (and_then entry.now pure.none)) }
    ensures befores_kept { OnErr result (befores.new.items ≡ befores.old.items) }
    ensures values_kept { OnErr result (values.new.items ≡ values.old.items) }
{
    add_value(values, entry, position)?;
    match befores.push(before) {
        Ok(()) => Ok(()),
        Err(_) => {
            take_value_out(values, entry);
            Err(Memory)
        }
    }
}

/// Adds the position of an entry that is a value. An `Err` changes nothing.
fn add_value(values: &mut Vec<usize>, entry: &SharedEntry, position: usize) -> Result<(), Memory>
    ensures added { OnOk result (values.new.items ≡ values.old.items ++ pure.values_from position (and_then entry.now pure.none)) }
    ensures kept { OnErr result (values.new.items ≡ values.old.items) }
{
    match entry {
        SharedEntry::Val(_, _) => Ok(values.push(position)?),
        SharedEntry::Mod(_, _) => Ok(()),
        SharedEntry::Mty(_, _) => Ok(()),
        SharedEntry::Dark(_) => Ok(()),
    }
}

/// Removes the position of the last entry, if that is a value.
fn take_value_out(values: &mut Vec<usize>, entry: &SharedEntry)
    ensures { (front : List ℕ) (position : ℕ) → values.old.items ≡ front ++ pure.values_from position (and_then entry.now pure.none) → values.new.items ≡ front }
{
    match entry {
        SharedEntry::Val(_, _) => {
            values.pop();
        }
        SharedEntry::Mod(_, _) => {}
        SharedEntry::Mty(_, _) => {}
        SharedEntry::Dark(_) => {}
    }
}

fn is_at(position: Option<usize>, at: usize) -> bool
    ensures { result ≡ position_is at position }
{
    match position {
        Some(position) => position == at,
        None => false,
    }
}

pub(crate) fn is_spot(spot: Option<Spot>, at: usize) -> bool
    ensures { result ≡ position_is at (position_of spot) }
{
    match spot {
        Some(spot) => spot.position == at,
        None => false,
    }
}

fn module_at(list: &[SharedEntry], position: Option<usize>) -> Option<&Shared>
    ensures { option_copied result ≡ there mod_at list.now position }
{
    match list.get(position?) {
        Some(SharedEntry::Mod(_, shape)) => Some(shape),
        _ => None,
    }
}

fn module_type_at(list: &[SharedEntry], position: Option<usize>) -> Option<&Shared>
    ensures { option_copied result ≡ there mty_at list.now position }
{
    match list.get(position?) {
        Some(SharedEntry::Mty(_, shape)) => Some(shape),
        _ => None,
    }
}

impl Tables {
    /// What a look-up of a value has seen of the list.
    fn find_seen(&self, name: &[u8]) -> Seen
        ensures { (list : List SharedEntry) → Tells self.now list → Sees (entries_of list) name.now result }
    {
        match self.vals.get(name) {
            None => Seen {
                found: None,
                by: self.darks.last().copied(),
                passed: self.darks.len() as u64,
            },
            Some(spot) => {
                let passed = self.darks.len().saturating_sub(spot.darks);
                Seen {
                    found: Some(spot.goal),
                    by: if passed == 0 {
                        None
                    } else {
                        self.darks.last().copied()
                    },
                    passed: passed as u64,
                }
            }
        }
    }
}
