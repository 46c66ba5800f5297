//! The footprint of a declaration: what has to be renamed together with it.
#![tactic(auto)]

ghost use Rattle.std.specs.Prelude.{IfOk};
ghost use Rattle.dependency_kernel.specs.Foot.{IsFoot};
ghost use Rattle.dependency_kernel.specs.Laws.{HasOneName, ChangesAll, FixedStays, TellsPinned, IsTheOnly};

mod neighbors;
mod outside;
mod reached;

use rotor_base::{Facts, Foot, Memory, Place, Row};
use std::alloc::Global;

/// The footprint of the declaration at `d`. It has the declarations that are reached from `d` along links between
/// declarations, in either direction, in order of places. It names the least of them that is in a link with the
/// outside, if there is one. `Memory` is the only error.
pub fn footprint(alloc: Global, facts: &Facts, d: Place) -> Result<Foot, Memory>
    ensures foot { IfOk result (λ foot. IsFoot facts.now.links d foot) }
{
    let links = facts.links.as_slice();
    let decls = reached::find_reached(alloc, links, d)?;
    let outside = outside::find_least_fixed(alloc, links, &decls)?;
    Ok(Foot {
        decls: Row::from_vec(decls),
        outside,
    })
}

/// Law: names that agree along links give a footprint one name. So new names that agree along links and change one of
/// its declarations change all of them, to one name. If one of them is linked with the outside, and what is linked with
/// the outside keeps its name, they change none.
pub fn footprints_are_least()
    ensures name { HasOneName }
    ensures all { ChangesAll }
    ensures fixed { FixedStays }
{}

/// Law: links and a declaration have one footprint, and it names a declaration that the outside fixes exactly if one is
/// reached.
pub fn footprints_are_one()
    ensures only { IsTheOnly }
    ensures pinned { TellsPinned }
{}
