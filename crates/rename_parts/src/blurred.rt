//! The places at which an outside module hides what a member of a footprint is.

ghost use Rattle.std.specs.Prelude.{◌≡◌, ◌⊎◌};
ghost use Rattle.rename_parts.specs.Blurs.{in_set, behind_in, blurred_ref, blurred_item, BlursRef, BlursLink, earlier_of};
ghost use Rattle.rename_parts.specs.Leasts.{IsLeastOrNone};

use crate::leasts::take_earlier;
use rotor_base::{Goal, Link, Place, Ref};
use std::collections::BTreeSet;

/// The least place at which an outside module hides what a member is: a reference with a member behind; a member that
/// is the item of a link with such a source, or is behind one.
pub fn find_least_blurred(refs: &[Ref], links: &[Link], members: &BTreeSet<Place>) -> Option<Place>
    ensures { IsLeastOrNone (λ p. BlursRef members.now refs.now p ⊎ BlursLink members.now links.now p) result }
{
    let mut least = None;
    for reference in refs {
        least = take_earlier_of(least, blurred_ref(*reference, members));
    }
    for link in links {
        let item = take_earlier_of(least, blurred_item(*link, members));
        least = take_earlier_of(item, find_behind(link.source, members));
    }
    least
}

/// The earlier of two places, of which each may be missing.
fn take_earlier_of(best: Option<Place>, found: Option<Place>) -> Option<Place>
    ensures { result ≡ earlier_of best found }
{
    match found {
        Some(place) => Some(take_earlier(best, place)),
        None => best,
    }
}

/// The place of a reference with a member behind outside modules.
fn blurred_ref(reference: Ref, members: &BTreeSet<Place>) -> Option<Place>
    ensures { result ≡ blurred_ref members.now reference }
{
    match find_behind(reference.goal, members) {
        Some(_) => Some(reference.at),
        None => None,
    }
}

/// The item of a link whose source an outside module hides, if it is a member.
fn blurred_item(link: Link, members: &BTreeSet<Place>) -> Option<Place>
    ensures { result ≡ blurred_item members.now link }
{
    match (link.item, link.source) {
        (
            Goal::Decl(place),
            Goal::Blur {
                by: _,
                passed: _,
                behind: _,
            },
        ) => keep_member(place, members),
        _ => None,
    }
}

/// The member behind outside modules, if a goal has one.
fn find_behind(goal: Goal, members: &BTreeSet<Place>) -> Option<Place>
    ensures { result ≡ behind_in members.now goal }
{
    match goal {
        Goal::Blur {
            by: _,
            passed: _,
            behind: Some(place),
        } => keep_member(place, members),
        _ => None,
    }
}

/// A place, if it is a member.
fn keep_member(place: Place, members: &BTreeSet<Place>) -> Option<Place>
    ensures { result ≡ in_set members.now place }
{
    if members.contains(&place) {
        Some(place)
    } else {
        None
    }
}
