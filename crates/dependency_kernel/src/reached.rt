ghost use Rattle.std.specs.Prelude.{◌≡◌, IfOk, Contains, AllPairs};
ghost use Rattle.rotor_base.specs.declared.place.Place.{Place};
ghost use Rattle.rotor_base.specs.Place.{IsBefore};
ghost use Rattle.dependency_kernel.specs.Foot.{Path};

use crate::neighbors::neighbors_of;
use rotor_base::{Link, Memory, Place};
use std::alloc::Global;
use std::collections::BTreeSet;

/// The declarations that a path of links joins with `d`, `d` itself too, in order of places. `Memory` is the only
/// error.
pub fn find_reached(alloc: Global, links: &[Link], d: Place) -> Result<Vec<Place>, Memory>
    ensures ordered { IfOk result (λ decls. AllPairs IsBefore decls.items) }
    ensures reached { IfOk result (λ decls. (p : Place) → Contains decls.items p → Path links.now d p) }
    ensures all { IfOk result (λ decls. (p : Place) → Path links.now d p → Contains decls.items p) }
{
    let mut neighbors = neighbors_of(alloc, links)?;
    let mut decls = BTreeSet::new(alloc);
    let mut todo = Vec::new(alloc);
    todo.push(d)?;
    while let Some(place) = todo.pop() {
        if let Some(next) = neighbors.remove(&place) {
            todo.extend_from_slice(&next)?;
        }
        decls.insert(place)?;
    }
    list_in_order(alloc, &decls)
}

/// The declarations of a set, in order of places.
fn list_in_order(alloc: Global, decls: &BTreeSet<Place>) -> Result<Vec<Place>, Memory>
    ensures same { IfOk result (λ list. list.items ≡ decls.now.keys) }
    ensures ordered { IfOk result (λ list. AllPairs IsBefore list.items) }
{
    Ok(decls.iter().copied().collect(alloc)?)
}
