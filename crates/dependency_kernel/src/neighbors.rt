ghost use Rattle.std.specs.Prelude.{◌≡◌, ◌⊎◌, IfOk, OnOk, IfSome, IfNone};
ghost use Rattle.rotor_base.specs.declared.place.Place.{Place};
ghost use Rattle.dependency_kernel.specs.Foot.{Joined, link_of};
ghost use Rattle.dependency_kernel.specs.Neighbors.{HasNeighbor};

use rotor_base::{Goal, Link, Memory, Place};
use std::alloc::Global;
use std::collections::BTreeMap;

/// The declarations that are linked with each declaration, in either direction.
pub type Neighbors = BTreeMap<Place, Vec<Place>>;

/// For each declaration, those that a link joins with it, in either direction. `Memory` is the only error.
pub fn neighbors_of(alloc: Global, links: &[Link]) -> Result<Neighbors, Memory>
    ensures joined { IfOk result (λ neighbors. (a b : Place) → HasNeighbor neighbors a b → Joined links.now a b) }
    ensures all { IfOk result (λ neighbors. (a b : Place) → Joined links.now a b → HasNeighbor neighbors a b) }
{
    let mut neighbors = BTreeMap::new(alloc);
    for link in links {
        if let Some((item, source)) = both_ends(link) {
            add_neighbor(alloc, &mut neighbors, item, source)?;
            add_neighbor(alloc, &mut neighbors, source, item)?;
        }
    }
    Ok(neighbors)
}

/// The two ends of a link, if both are declarations.
fn both_ends(link: &Link) -> Option<(Place, Place)>
    ensures ends { IfSome result (λ ends. link.now ≡ link_of ends.0 ends.1) }
    ensures others { IfNone result ((a b : Place) → link.now ≡ link_of a b → ⊥) }
{
    match (link.item, link.source) {
        (Goal::Decl(item), Goal::Decl(source)) => Some((item, source)),
        _ => None,
    }
}

/// Adds a neighbor of a declaration.
fn add_neighbor(
    alloc: Global,
    neighbors: &mut Neighbors,
    from: Place,
    to: Place,
) -> Result<(), Memory>
    ensures added { OnOk result (HasNeighbor neighbors.new from to) }
    ensures kept { OnOk result ((a b : Place) → HasNeighbor neighbors.old a b → HasNeighbor neighbors.new a b) }
    ensures only { OnOk result ((a b : Place) → HasNeighbor neighbors.new a b → HasNeighbor neighbors.old a b ⊎ ((a ≡ from) × (b ≡ to))) }
{
    let mut list = match neighbors.remove(&from) {
        Some(list) => list,
        None => Vec::new(alloc),
    };
    list.push(to)?;
    neighbors.insert(from, list)?;
    Ok(())
}
