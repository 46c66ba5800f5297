//! The binders that may not take another name.

ghost use Rattle.std.specs.Prelude.{◌≡◌, ◌++◌, ◌||◌, List, true, Contains, IfOk, OnOk, filter, map, if◌then◌else◌};
ghost use Rattle.std.specs.BTreeSet.{contains};
ghost use Rattle.rotor_base.specs.Place.{place_cmp};
ghost use Rattle.ml_trees.specs.Tree.{UnitTree};
ghost use Rattle.binding_model.specs.Facts.{earlier, facts as facts_of};
ghost use Rattle.binding_model.specs.Renaming.{places, at_place, IsFixedSite};
ghost use Rattle.rename_parts.specs.Leasts.{IsLeastOrNone};
ghost use Rattle.shape_core.specs.Places.{HasPlaces};
ghost use Rattle.rename_verify.specs.Changed.{Changed};
ghost use Rattle.rename_verify.specs.Fixed.{behind, fixed_by, fixed_by_link, fixed_by_ref, joined, HasFixedUses, IsLeastHeld};

use crate::verdict::Change;
use capture_check::is_before;
use rename_parts::{Hit, hit_marks};
use rotor_base::{Facts, Goal, Link, Memory, Place, Ref};
use std::alloc::Global;
use std::collections::BTreeSet;
use value_places::PlacedProject;
use watched::set_of;

/// The least of some changed binders that may not take another name: a use of it is an operator, or its word is a label
/// or a field too; a link joins it with the outside; or an outside module may hide it. The places and the facts are
/// those of the project. `Memory` is the only error.
pub fn find_least_fixed(
    alloc: Global,
    placed: &PlacedProject<'_>,
    facts: &Facts,
    changes: &[Change],
) -> Result<Option<Place>, Memory>
    ensures { (us : List UnitTree) → placed.now ≡ places us → facts.now ≡ facts_of us → ((c : Changed) → Contains changes.now c → IsFixedSite (at_place (places us) c.0) → ⊥) → IfOk result (IsLeastHeld us changes.now) }
{
    let uses = fixed_uses(alloc, placed, facts.refs.as_slice())?;
    let fixed = fixed_binders(alloc, facts, &uses)?;
    Ok(find_least_among(changes, &fixed))
}

/// The references that are operators, or whose word is a label or a field too.
fn fixed_uses(
    alloc: Global,
    placed: &PlacedProject<'_>,
    refs: &[Ref],
) -> Result<BTreeSet<Place>, Memory>
    ensures { IfOk result (HasFixedUses placed.now refs.now) }
{
    let places = places_of(alloc, refs)?;
    let marks = hit_marks(alloc, placed, &places)?;
    let fixed = fixed_places(alloc, &marks)?;
    set_of(alloc, &fixed)
}

/// The places of references.
fn places_of(alloc: Global, refs: &[Ref]) -> Result<Vec<Place>, Memory>
    ensures { IfOk result (λ list. list.items ≡ map (λ r. r.at) refs.now) }
{
    let mut list = Vec::new(alloc);
    for reference in refs {
        list.push(reference.at)?;
    }
    Ok(list)
}

/// The places of operators, and of words that are labels or fields too.
fn fixed_places(alloc: Global, marks: &[Hit]) -> Result<Vec<Place>, Memory>
    ensures { IfOk result (λ list. list.items ≡ map (λ h. h.place) (filter (λ h. h.operator || h.pun) marks.now)) }
{
    let mut list = Vec::new(alloc);
    for mark in marks {
        if mark.operator || mark.pun {
            list.push(mark.place)?;
        }
    }
    Ok(list)
}

/// The binders that references and links fix.
fn fixed_binders(
    alloc: Global,
    facts: &Facts,
    uses: &BTreeSet<Place>,
) -> Result<BTreeSet<Place>, Memory>
    ensures { IfOk result (HasPlaces (fixed_by uses.now facts.now)) }
{
    let mut list = Vec::new(alloc);
    for reference in facts.refs.as_slice() {
        add_by_ref(&mut list, *reference, uses)?;
    }
    for link in facts.links.as_slice() {
        add_by_link(&mut list, *link)?;
    }
    set_of(alloc, &list)
}

/// Adds the binders that a reference fixes.
fn add_by_ref(list: &mut Vec<Place>, reference: Ref, uses: &BTreeSet<Place>) -> Result<(), Memory>
    ensures { OnOk result (list.new.items ≡ list.old.items ++ fixed_by_ref uses.now reference) }
{
    match reference.goal {
        Goal::Decl(binder) => {
            if uses.contains(&reference.at) {
                list.push(binder)?;
            }
            Ok(())
        }
        goal => add_behind(list, goal),
    }
}

/// Adds the binders that a link fixes.
fn add_by_link(list: &mut Vec<Place>, link: Link) -> Result<(), Memory>
    ensures { OnOk result (list.new.items ≡ list.old.items ++ fixed_by_link link) }
{
    add_joined(list, link.item, link.source)?;
    add_behind(list, link.source)
}

/// Adds the binder of a link with the outside, or the item of a link whose source an outside module may hide.
fn add_joined(list: &mut Vec<Place>, item: Goal, source: Goal) -> Result<(), Memory>
    ensures { OnOk result (list.new.items ≡ list.old.items ++ joined item source) }
{
    match (item, source) {
        (Goal::Decl(binder), Goal::Outside | Goal::Blur { .. }) => list.push(binder)?,
        (Goal::Outside, Goal::Decl(binder)) => list.push(binder)?,
        _ => {}
    }
    Ok(())
}

/// Adds the binder behind outside modules.
fn add_behind(list: &mut Vec<Place>, goal: Goal) -> Result<(), Memory>
    ensures { OnOk result (list.new.items ≡ list.old.items ++ behind goal) }
{
    if let Goal::Blur {
        by: _,
        passed: _,
        behind: Some(binder),
    } = goal
    {
        list.push(binder)?;
    }
    Ok(())
}

/// The least of some changed binders that is in a set.
fn find_least_among(changes: &[Change], fixed: &BTreeSet<Place>) -> Option<Place>
    ensures { IsLeastOrNone (λ p. (c : Changed) × Contains changes.now c × (c.0 ≡ p) × (contains place_cmp fixed.now p ≡ true)) result }
{
    let mut least = None;
    for change in changes {
        least = take_fixed(least, change.0, fixed);
    }
    least
}

/// The earlier of a place, of which there may be none, and of one that is in a set.
fn take_fixed(best: Option<Place>, place: Place, fixed: &BTreeSet<Place>) -> Option<Place>
    ensures { result ≡ (if contains place_cmp fixed.now place then earlier best place else best) }
{
    if !fixed.contains(&place) {
        return best;
    }
    match best {
        Some(other) if !is_before(place, other) => Some(other),
        _ => Some(place),
    }
}
