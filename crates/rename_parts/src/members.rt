//! The members of a footprint, and the references to them.

ghost use Rattle.std.specs.Prelude.{◌≡◌, ◌==◌, ℕ, IfOk, length};
ghost use Rattle.std.specs.BTreeSet.{contains};
ghost use Rattle.std.specs.List.{list_any};
ghost use Rattle.std.specs.Ordering.{nat_cmp};
ghost use Rattle.rotor_base.specs.declared.place.Foot.{Foot};
ghost use Rattle.shape_core.specs.Places.{HasPlaces};
ghost use Rattle.rename_model.specs.Foot.{hits, refs_to};

use rotor_base::{Foot, Memory, Place, Ref};
use shape_core::is_among;
use std::alloc::Global;
use std::collections::BTreeSet;

/// The places that take the new word: the members of a footprint, and the references to them. `Memory` is the only
/// error.
pub fn hit_places(
    alloc: Global,
    refs: &[Ref],
    foot: &Foot,
    members: &BTreeSet<Place>,
) -> Result<Vec<Place>, Memory>
    requires { HasPlaces foot.now.decls members.now }
    ensures { IfOk result (λ list. list.items ≡ hits refs.now foot.now) }
{
    let mut list = Vec::new(alloc);
    list.extend_from_slice(foot.decls.as_slice())?;
    for reference in refs {
        if is_among(reference.goal, members) {
            list.push(reference.at)?;
        }
    }
    Ok(list)
}

/// The number of references to members of a footprint.
pub fn count_refs(refs: &[Ref], members: &BTreeSet<Place>) -> u64
    ensures { (foot : Foot) → HasPlaces foot.decls members.now → result ≡ length (refs_to foot refs.now) }
{
    let mut count: u64 = 0;
    for reference in refs {
        if is_among(reference.goal, members) {
            count += 1;
        }
    }
    count
}

/// The numbers of the files of some places. `Memory` is the only error.
pub fn files_of(alloc: Global, places: &[Place]) -> Result<BTreeSet<u32>, Memory>
    ensures { IfOk result (λ set. (n : ℕ) → contains nat_cmp set n ≡ list_any (λ p. p.file == n) places.now) }
{
    let mut set = BTreeSet::new(alloc);
    for place in places {
        set.insert(place.file)?;
    }
    Ok(set)
}
