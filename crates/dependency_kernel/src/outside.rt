ghost use Rattle.std.specs.Prelude.{◌≡◌, IfOk, IfSome, IfNone, AllPairs, true};
ghost use Rattle.std.specs.BTreeSet.{contains};
ghost use Rattle.rotor_base.specs.declared.place.Place.{Place};
ghost use Rattle.rotor_base.specs.Place.{IsBefore, place_cmp};
ghost use Rattle.dependency_kernel.specs.Foot.{IsFixed, IsFixedBy, IsLeastFixed};

use rotor_base::{Goal, Link, Memory, Place};
use std::alloc::Global;
use std::collections::BTreeSet;

/// The first of these declarations, which are in order, that has a link with the outside. `Memory` is the only error.
pub fn find_least_fixed(
    alloc: Global,
    links: &[Link],
    decls: &[Place],
) -> Result<Option<Place>, Memory>
    requires { AllPairs IsBefore decls.now }
    ensures { IfOk result (IsLeastFixed links.now decls.now) }
{
    let fixed = find_fixed(alloc, links)?;
    for place in decls {
        if fixed.contains(place) {
            return Ok(Some(*place));
        }
    }
    Ok(None)
}

/// The declarations that are in a link with the outside.
fn find_fixed(alloc: Global, links: &[Link]) -> Result<BTreeSet<Place>, Memory>
    ensures fixed { IfOk result (λ fixed. (p : Place) → contains place_cmp fixed p ≡ true → IsFixed links.now p) }
    ensures all { IfOk result (λ fixed. (p : Place) → IsFixed links.now p → contains place_cmp fixed p ≡ true) }
{
    let mut fixed = BTreeSet::new(alloc);
    for link in links {
        if let Some(place) = fixed_end(link) {
            fixed.insert(place)?;
        }
    }
    Ok(fixed)
}

/// The declaration of a link whose other end is the outside.
fn fixed_end(link: &Link) -> Option<Place>
    ensures fixed { IfSome result (IsFixedBy link.now) }
    ensures others { IfNone result ((p : Place) → IsFixedBy link.now p → ⊥) }
{
    match (link.item, link.source) {
        (Goal::Decl(place), Goal::Outside) | (Goal::Outside, Goal::Decl(place)) => Some(place),
        _ => None,
    }
}
