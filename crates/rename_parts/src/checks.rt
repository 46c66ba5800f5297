//! What is at the places that take a new word.

ghost use Rattle.std.specs.Prelude.{◌≡◌, ◌++◌, Contains, IfOk, OnOk, true, if◌then◌else◌};
ghost use Rattle.binding_model.specs.Facts.{earlier};
ghost use Rattle.std.specs.List.{list_any};
ghost use Rattle.rename_parts.specs.Hits.{all_hits, hit_at};
ghost use Rattle.rename_parts.specs.Leasts.{IsLeastOrNone};
ghost use Rattle.rename_parts.specs.declared.checks.Hit.{Hit};

use crate::leasts::take_earlier;
use rotor_base::{Memory, Place};
use std::alloc::Global;
use value_places::PlacedProject;

/// A place that takes a new word: whether its word is a label or a field too, and whether it is an operator.
#[derive(Clone, Copy, Debug)]
pub struct Hit {
    pub place: Place,
    pub pun: bool,
    pub operator: bool,
}

/// What is at each of some places, in order. A place without a value has no mark. `Memory` is the only error.
pub fn hit_marks(
    alloc: Global,
    placed: &PlacedProject<'_>,
    places: &[Place],
) -> Result<Vec<Hit>, Memory>
    ensures { IfOk result (λ list. list.items ≡ all_hits places.now placed.now) }
{
    let mut list = Vec::new(alloc);
    for place in places {
        add_hit(&mut list, placed, *place)?;
    }
    Ok(list)
}

/// Adds what is at a place.
fn add_hit(list: &mut Vec<Hit>, placed: &PlacedProject<'_>, place: Place) -> Result<(), Memory>
    ensures { OnOk result (list.new.items ≡ list.old.items ++ hit_at placed.now place) }
{
    if let Some(site) = placed.site_at(place) {
        list.push(Hit {
            place,
            pun: site.pun,
            operator: site.operator,
        })?;
    }
    Ok(())
}

/// Whether the word at one of these places is an operator.
pub fn has_operator(marks: &[Hit]) -> bool
    ensures { result ≡ list_any (λ h. h.operator) marks.now }
{
    marks.iter().any(|mark| mark.operator)
}

/// The least of them whose word is a label or a field too.
pub fn find_least_pun(marks: &[Hit]) -> Option<Place>
    ensures { IsLeastOrNone (λ p. (h : Hit) × Contains marks.now h × (h.pun ≡ true) × (h.place ≡ p)) result }
{
    let mut least = None;
    for mark in marks {
        least = take_pun(least, *mark);
    }
    least
}

/// The earlier of a place, of which there may be none, and of one whose word is a label or a field too.
fn take_pun(best: Option<Place>, mark: Hit) -> Option<Place>
    ensures { result ≡ (if mark.pun then earlier best mark.place else best) }
{
    if mark.pun {
        Some(take_earlier(best, mark.place))
    } else {
        best
    }
}
