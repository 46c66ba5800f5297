//! Where a list of entries has each declaration last.

ghost use Rattle.std.specs.Prelude.{◌≡◌, ◌∷◌, ◌++◌, [], List, OnOk, length};
ghost use Rattle.std.specs.BTreeMap.{get};
ghost use Rattle.rotor_base.specs.Place.{place_cmp};
ghost use Rattle.rotor_base.specs.declared.looks.Watch.{Watch};
ghost use Rattle.shape_core.specs.Shape as pure;
ghost use Rattle.shape_core.specs.declared.shared.SharedEntry.{SharedEntry};
ghost use Rattle.shape_core.specs.Node.{entries_of};
ghost use Rattle.shape_core.specs.Looks as looks;
ghost use Rattle.shape_core.specs.Declarations.{HasDeclarations, declared_in, later, spot_of};

use crate::index::LookSpot;
use crate::shared::SharedEntry;
use rotor_base::{Goal, Memory, Place};
use std::alloc::Global;
use std::collections::BTreeMap;

/// The last value of a declaration: its position, and the number of Dark entries before it.
#[derive(Clone, Copy)]
pub struct LastValue {
    pub position: usize,
    pub darks: usize,
}

/// The last value of each declaration of a list.
pub struct Declarations {
    pub last_values: BTreeMap<Place, LastValue>,
}

impl Drop for Declarations {
    fn drop(self) {
        let Declarations { last_values: _ } = self;
    }
}

impl Declarations {
    /// The declarations of the empty list.
    pub fn new(alloc: Global) -> Self
        ensures { HasDeclarations result [] }
    {
        Declarations {
            last_values: BTreeMap::new(alloc),
        }
    }

    /// Takes in the entry behind the list, which has so many entries, and so many Dark ones. `Memory` is the only
    /// error.
    pub fn add(&mut self, entry: &SharedEntry, position: usize, darks: usize) -> Result<(), Memory>
        ensures { OnOk result ((list : List SharedEntry) → length list ≡ position → length (pure.darks (entries_of list)) ≡ darks → HasDeclarations self.old list → HasDeclarations self.new (list ++ entry.now ∷ [])) }
    {
        match declaration_in(entry) {
            Some(place) => {
                self.last_values
                    .insert(place, LastValue { position, darks })?;
                Ok(())
            }
            None => Ok(()),
        }
    }

    /// The last value whose goal is among some declarations, in a list with so many Dark entries. It costs a look-up
    /// for each declaration.
    pub fn last_member(&self, decls: &[Place], darks: u64) -> Option<LookSpot>
        ensures { (list : List SharedEntry) (w : Watch) → HasDeclarations self.now list → w.foot.decls ≡ decls.now → darks ≡ length (pure.darks (entries_of list)) → result ≡ looks.last_where (looks.in_foot w) (entries_of list) }
    {
        let mut last = None;
        for decl in decls {
            last = take_later(last, self.spot(*decl, darks));
        }
        last
    }

    /// The last value of a declaration.
    fn spot(&self, decl: Place, darks: u64) -> Option<LookSpot>
        ensures { result ≡ spot_of decl darks (get place_cmp self.now.last_values decl) }
    {
        match self.last_values.get(&decl) {
            Some(last) => {
                let after = darks.saturating_sub(last.darks as u64);
                Some((last.position as u64, decl, after))
            }
            None => None,
        }
    }
}

/// The declaration that an entry is, if it is one.
fn declaration_in(entry: &SharedEntry) -> Option<Place>
    ensures { result ≡ declared_in entry.now }
{
    match entry {
        SharedEntry::Val(_, goal) => declaration_of(*goal),
        SharedEntry::Mod(_, _) => None,
        SharedEntry::Mty(_, _) => None,
        SharedEntry::Dark(_) => None,
    }
}

fn declaration_of(goal: Goal) -> Option<Place>
    ensures { result ≡ pure.decl_of goal }
{
    match goal {
        Goal::Decl(place) => Some(place),
        Goal::Outside => None,
        Goal::Missing => None,
        Goal::Hidden => None,
        Goal::Blur { .. } => None,
    }
}

/// The later one of two spots.
fn take_later(one: Option<LookSpot>, other: Option<LookSpot>) -> Option<LookSpot>
    ensures { result ≡ later one other }
{
    match one {
        None => other,
        Some(first) => match other {
            None => one,
            Some(second) => { if first.0 < second.0 { other } else { one } }
        },
    }
}
