//! The refusals of a renaming before its new sources are made.

ghost use Rattle.std.specs.Prelude.{◌≡◌, ◌⊎◌, List, Contains, IfErr, IfOk, OnOk, bytes_eq, true};
ghost use Rattle.std.specs.List.{list_any};
ghost use Rattle.rotor_base.specs.Name.{is_value_name};
ghost use Rattle.ml_trees.specs.Tree.{UnitTree};
ghost use Rattle.rotor_base.specs.declared.place.Place.{Place};
ghost use Rattle.binding_model.specs.Facts.{facts as facts_of};
ghost use Rattle.binding_model.specs.Renaming.{name_of, places};
ghost use Rattle.rename_model.specs.Foot.{hits};
ghost use Rattle.rename_parts.specs.declared.checks.Hit.{Hit};
ghost use Rattle.rename_parts.specs.Blurs.{BlursRef, BlursLink};
ghost use Rattle.rename_parts.specs.Leasts.{IsLeastOrNone};
ghost use Rattle.shape_core.specs.Places.{HasPlaces};
ghost use Rattle.rename_parts.specs.Findings.{IsFree, IsRefused, refusal_of};

use crate::blurred::find_least_blurred;
use crate::checks::{Hit, find_least_pun, has_operator, hit_marks};
use crate::members::hit_places;
use rotor_base::{Facts, Place, Refusal, Watch, is_name};
use std::alloc::Global;
use std::collections::BTreeSet;
use value_places::PlacedProject;
use watched::set_of;

/// What is found of a footprint: whether its name is an operator, whether the new name is a value name and whether it
/// is the old one, the least member that is linked with the outside, the least pun, and the least place at which an
/// outside module hides what a member is.
#[derive(Clone, Copy, Debug)]
pub struct Findings {
    pub operator: bool,
    pub valid: bool,
    pub same: bool,
    pub outside: Option<Place>,
    pub pun: Option<Place>,
    pub blurred: Option<Place>,
}

/// The places that take the new word.
#[derive(Drop)]
pub struct Hits {
    pub list: Vec<Place>,
    pub set: BTreeSet<Place>,
}

/// The places that a renaming gives the new word, if none of the refusals `Operator` to `Blurred` holds. The caller
/// ensures that `members` is the set of the footprint's members.
pub fn judge_foot(
    alloc: Global,
    placed: &PlacedProject<'_>,
    facts: &Facts,
    watch: &Watch,
    members: &BTreeSet<Place>,
) -> Result<Hits, Refusal>
    requires members { HasPlaces watch.now.foot.decls members.now }
    ensures list { IfOk result (λ found. found.list.items ≡ hits facts.now.refs watch.now.foot) }
    ensures set { IfOk result (λ found. HasPlaces (hits facts.now.refs watch.now.foot) found.set) }
    ensures free { OnOk result ((us : List UnitTree) (d : Place) → placed.now ≡ places us → facts.now ≡ facts_of us → watch.now.old ≡ name_of us d → IsFree us d watch.now.foot watch.now.new) }
    ensures refused { IfErr result (λ why. (us : List UnitTree) (d : Place) → placed.now ≡ places us → facts.now ≡ facts_of us → watch.now.old ≡ name_of us d → IsRefused us d watch.now.foot watch.now.new why) }
{
    let list = hit_places(alloc, facts.refs.as_slice(), &watch.foot, members)?;
    let set = set_of(alloc, &list)?;
    let marks = hit_marks(alloc, placed, &list)?;
    let found = find_all(facts, watch, members, &marks);
    match first_refusal(found) {
        Some(why) => Err(why),
        None => Ok(Hits { list, set }),
    }
}

/// What is found of a footprint, by its members and by what is at the places that take the new word.
fn find_all(facts: &Facts, watch: &Watch, members: &BTreeSet<Place>, marks: &[Hit]) -> Findings
    ensures operator { result.operator ≡ list_any (λ h. h.operator) marks.now }
    ensures valid { result.valid ≡ is_value_name watch.now.new }
    ensures same { result.same ≡ bytes_eq watch.now.new watch.now.old }
    ensures outside { result.outside ≡ watch.now.foot.outside }
    ensures pun { IsLeastOrNone (λ p. (h : Hit) × Contains marks.now h × (h.pun ≡ true) × (h.place ≡ p)) result.pun }
    ensures blurred { IsLeastOrNone (λ p. BlursRef members.now facts.now.refs p ⊎ BlursLink members.now facts.now.links p) result.blurred }
{
    Findings {
        operator: has_operator(marks),
        valid: is_name(watch.new.as_bytes()),
        same: watch.new.as_bytes() == watch.old.as_bytes(),
        outside: watch.foot.outside,
        pun: find_least_pun(marks),
        blurred: find_least_blurred(facts.refs.as_slice(), facts.links.as_slice(), members),
    }
}

/// The first refusal that findings give.
fn first_refusal(found: Findings) -> Option<Refusal>
    ensures { result ≡ refusal_of found }
{
    if found.operator {
        return Some(Refusal::Operator);
    }
    if !found.valid {
        return Some(Refusal::BadName);
    }
    if found.same {
        return Some(Refusal::SameName);
    }
    if let Some(at) = found.outside {
        return Some(Refusal::Outside { at });
    }
    if let Some(at) = found.pun {
        return Some(Refusal::Pun { at });
    }
    match found.blurred {
        Some(at) => Some(Refusal::Blurred { at }),
        None => None,
    }
}
