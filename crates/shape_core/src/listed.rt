//! Look-ups in a list of entries without an index. Each walks the list once, and takes no memory.

ghost use Rattle.std.specs.Prelude.{◌≡◌, List, [], ◌∷◌, length, option_copied};
ghost use Rattle.shape_core.specs.Looks as looks;
ghost use Rattle.shape_core.specs.Shape as pure;
ghost use Rattle.shape_core.specs.Node.{entries_of};
ghost use Rattle.shape_core.specs.Accepted.{is_accepted};
ghost use Rattle.shape_core.specs.Places.{HasPlaces};
ghost use Rattle.shape_core.specs.View.{Sees};
ghost use Rattle.rotor_base.specs.declared.looks.Watch.{Watch};

use crate::index::{LookSpot, place_of};
use crate::joins::{count_both, last_of_both, see_both};
use crate::members::is_among;
use crate::shape::{Seen, see_nothing};
use crate::shared::{Shared, SharedEntry};
use rotor_base::Place;
use std::collections::BTreeSet;

/// What a look-up of a value sees.
pub fn seen_among(list: &[SharedEntry], name: &[u8]) -> Seen
    ensures { Sees (entries_of list.now) name.now result }
{
    let mut seen = see_nothing();
    for entry in list {
        seen = see_both(seen, seen_at(entry, name));
    }
    seen
}

/// The shape of the last module of that name.
pub fn module_among<'a>(list: &'a [SharedEntry], name: &[u8]) -> Option<&'a Shared>
    ensures { option_copied result ≡ pure.find_mod (entries_of list.now) name.now }
{
    let mut last = None;
    for entry in list {
        last = module_at(entry, name).or(last);
    }
    last
}

/// The shape of the last module type of that name.
pub fn module_type_among<'a>(list: &'a [SharedEntry], name: &[u8]) -> Option<&'a Shared>
    ensures { option_copied result ≡ pure.find_mty (entries_of list.now) name.now }
{
    let mut last = None;
    for entry in list {
        last = module_type_at(entry, name).or(last);
    }
    last
}

/// The number of Dark entries, and the place of the last one.
pub fn darks_among(list: &[SharedEntry]) -> (u64, Option<Place>)
    ensures number { result.0 ≡ length (pure.darks (entries_of list.now)) }
    ensures last { result.1 ≡ pure.last_place (pure.darks (entries_of list.now)) }
{
    let mut darks = (0, None);
    for entry in list {
        darks = count_both(darks, darks_at(entry));
    }
    darks
}

/// The last value of a name.
pub fn last_val_among(list: &[SharedEntry], name: &[u8]) -> Option<LookSpot>
    ensures { result ≡ looks.last_where (looks.of_name name.now) (entries_of list.now) }
{
    let mut last = None;
    for (at, entry) in list.iter().enumerate() {
        let here = spot_at(entry, is_value_of(entry, name));
        last = last_of_both(last, here, at, darks_at(entry).0);
    }
    last
}

/// The last value whose goal is among the places of a set.
pub fn last_member_among(list: &[SharedEntry], set: &BTreeSet<Place>) -> Option<LookSpot>
    ensures { (w : Watch) → HasPlaces w.foot.decls set.now → result ≡ looks.last_where (looks.in_foot w) (entries_of list.now) }
{
    let mut last = None;
    for (at, entry) in list.iter().enumerate() {
        let here = spot_at(entry, is_member(entry, set));
        last = last_of_both(last, here, at, darks_at(entry).0);
    }
    last
}

/// What a look-up of a value sees of an entry alone.
fn seen_at(entry: &SharedEntry, name: &[u8]) -> Seen
    ensures { Sees (entries_of (entry.now ∷ [])) name.now result }
{
    match entry {
        SharedEntry::Val(x, goal) => {
            if x.as_bytes() == name {
                Seen {
                    found: Some(*goal),
                    by: None,
                    passed: 0,
                }
            } else {
                see_nothing()
            }
        }
        SharedEntry::Mod(_, _) => see_nothing(),
        SharedEntry::Mty(_, _) => see_nothing(),
        SharedEntry::Dark(at) => Seen {
            found: None,
            by: Some(*at),
            passed: 1,
        },
    }
}

/// The shape of an entry that is a module of that name.
fn module_at<'a>(entry: &'a SharedEntry, name: &[u8]) -> Option<&'a Shared>
    ensures { option_copied result ≡ pure.find_mod (entries_of (entry.now ∷ [])) name.now }
{
    match entry {
        SharedEntry::Mod(x, shape) => {
            if x.as_bytes() == name {
                Some(shape)
            } else {
                None
            }
        }
        SharedEntry::Val(_, _) => None,
        SharedEntry::Mty(_, _) => None,
        SharedEntry::Dark(_) => None,
    }
}

/// The shape of an entry that is a module type of that name.
fn module_type_at<'a>(entry: &'a SharedEntry, name: &[u8]) -> Option<&'a Shared>
    ensures { option_copied result ≡ pure.find_mty (entries_of (entry.now ∷ [])) name.now }
{
    match entry {
        SharedEntry::Mty(x, shape) => {
            if x.as_bytes() == name {
                Some(shape)
            } else {
                None
            }
        }
        SharedEntry::Val(_, _) => None,
        SharedEntry::Mod(_, _) => None,
        SharedEntry::Dark(_) => None,
    }
}

/// How many Dark entries an entry alone is, and its place if it is one.
fn darks_at(entry: &SharedEntry) -> (u64, Option<Place>)
    ensures number { result.0 ≡ length (pure.darks (entries_of (entry.now ∷ []))) }
    ensures last { result.1 ≡ pure.last_place (pure.darks (entries_of (entry.now ∷ []))) }
{
    match entry {
        SharedEntry::Dark(at) => (1, Some(*at)),
        SharedEntry::Val(_, _) => (0, None),
        SharedEntry::Mod(_, _) => (0, None),
        SharedEntry::Mty(_, _) => (0, None),
    }
}

/// The spot of an entry alone, if a test accepts it.
fn spot_at(entry: &SharedEntry, accepted: bool) -> Option<LookSpot>
    ensures { (test : looks.Test) → accepted ≡ is_accepted test entry.now → result ≡ looks.last_where test (entries_of (entry.now ∷ [])) }
{
    match entry {
        SharedEntry::Val(_, goal) => {
            if accepted {
                Some((0, place_of(*goal), 0))
            } else {
                None
            }
        }
        SharedEntry::Mod(_, _) => None,
        SharedEntry::Mty(_, _) => None,
        SharedEntry::Dark(_) => None,
    }
}

/// Whether an entry is a value of a name.
fn is_value_of(entry: &SharedEntry, name: &[u8]) -> bool
    ensures { result ≡ is_accepted (looks.of_name name.now) entry.now }
{
    match entry {
        SharedEntry::Val(x, _) => x.as_bytes() == name,
        SharedEntry::Mod(_, _) => false,
        SharedEntry::Mty(_, _) => false,
        SharedEntry::Dark(_) => false,
    }
}

/// Whether an entry is a value whose goal is among the places of a set.
fn is_member(entry: &SharedEntry, set: &BTreeSet<Place>) -> bool
    ensures { (w : Watch) → HasPlaces w.foot.decls set.now → result ≡ is_accepted (looks.in_foot w) entry.now }
{
    match entry {
        SharedEntry::Val(_, goal) => is_among(*goal, set),
        SharedEntry::Mod(_, _) => false,
        SharedEntry::Mty(_, _) => false,
        SharedEntry::Dark(_) => false,
    }
}
