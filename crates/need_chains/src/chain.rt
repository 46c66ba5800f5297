//! The units of a chain.
ghost use Rattle.std.specs.Prelude.{IfOk, OnOk};
ghost use Rattle.std.specs.Option.{option_copied};
ghost use Rattle.need_chains.specs.Distances.{AddsChain, IsNextUnit};

use crate::marks::first_marked;
use crate::needs::needed_at;
use crate::unit_heads::UnitHeads;
use rotor_base::{Memory, Name};
use std::alloc::Global;

/// Adds the units of the chain of this many needs from a unit to another, by the distances to that one. No chain of
/// fewer needs but none leads from the unit to the other.
pub(crate) fn push_chain(
    alloc: Global,
    names: &mut Vec<Name>,
    sources: &[UnitHeads],
    distances: &[Option<usize>],
    unit: &[u8],
    needs: usize,
) -> Result<(), Memory>
    ensures { OnOk result (AddsChain needs sources.now unit.now distances.now names.old.items names.new.items) }
{
    if needs == 0 {
        return Ok(());
    }
    match next_unit(alloc, sources, distances, unit, needs - 1)? {
        Some(next) => {
            names.push(Name::new(alloc, next)?)?;
            push_chain(alloc, names, sources, distances, next, needs - 1)
        }
        None => Ok(()),
    }
}

/// The first in byte order of the units at a distance that a unit needs.
fn next_unit<'a>(
    alloc: Global,
    sources: &'a [UnitHeads],
    distances: &[Option<usize>],
    unit: &[u8],
    needs: usize,
) -> Result<Option<&'a [u8]>, Memory>
    ensures { IfOk result (λ next. IsNextUnit needs sources.now unit.now distances.now (option_copied next)) }
{
    let marks = needed_at(alloc, sources, distances, unit, needs)?;
    Ok(first_marked(sources, &marks))
}
