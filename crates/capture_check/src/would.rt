//! What a look-up would find after a renaming.

ghost use Rattle.std.specs.Prelude.{◌≡◌};
ghost use Rattle.binding_model.specs.Looks.{behind_darks, later, would_find, would_source};
ghost use Rattle.capture_check.specs.Would.{goal_if, source_if};

use rotor_base::{Goal, LinkLook, Place, RefLook};

/// A position in a list, a declaration, and the number of outside modules after that position.
type Spot = (u64, Place, u64);

/// Would of a reference, whose goal is a member of the footprint or not.
pub fn would_ref(look: RefLook, member: bool) -> Goal
    ensures { result ≡ goal_if member look }
{
    if look.is_new || member {
        would_find(look.by, look.goal, take_later(look.foot, look.new))
    } else {
        look.goal
    }
}

/// Would of a link, whose item is a member of the footprint or not.
pub fn would_link(look: LinkLook, member: bool) -> Goal
    ensures { result ≡ source_if member look }
{
    let none = find_behind_darks(look.by, look.darks, None);
    if look.is_new || member {
        let found = would_find(look.by, none, take_later(look.foot, look.new));
        would_source(look.later_foot || look.later_new, look.pinned, found)
    } else {
        would_source(
            look.later_old,
            look.pinned,
            would_find(look.by, none, look.old),
        )
    }
}

fn would_source(hidden: bool, pinned: bool, found: Goal) -> Goal
    ensures { result ≡ would_source hidden pinned found }
{
    if hidden {
        Goal::Hidden
    } else if pinned {
        Goal::Outside
    } else {
        found
    }
}

/// The later of two spots of a list.
fn take_later(a: Option<Spot>, b: Option<Spot>) -> Option<Spot>
    ensures { result ≡ later a b }
{
    match (a, b) {
        (Some(p), Some(q)) => Some(if p.0 <= q.0 { q } else { p }),
        (None, q) => q,
        (p, None) => p,
    }
}

/// What was found, read as a goal, or `other` if nothing was found.
fn would_find(by: Option<Place>, other: Goal, found: Option<Spot>) -> Goal
    ensures { result ≡ would_find by other found }
{
    match found {
        None => other,
        Some(spot) => find_behind_darks(by, spot.2, Some(spot.1)),
    }
}

/// A declaration or none behind so many outside modules, of which `by` is the last.
fn find_behind_darks(by: Option<Place>, darks: u64, found: Option<Place>) -> Goal
    ensures { result ≡ behind_darks by darks found }
{
    if darks == 0 {
        return match found {
            None => Goal::Missing,
            Some(place) => Goal::Decl(place),
        };
    }
    Goal::Blur {
        by: by.unwrap_or(Place { file: 0, token: 0 }),
        passed: darks,
        behind: found,
    }
}
