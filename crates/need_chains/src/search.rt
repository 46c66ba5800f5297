//! The shortest chain from a unit back to it.
ghost use Rattle.std.specs.Prelude.{IfNone, IfOk, IfSome};
ghost use Rattle.need_chains.specs.Chains.{HasNoCircle, IsCircle};

use crate::chain::push_chain;
use crate::distances::{any_at, first_distances, more_distances};
use crate::rows::{need_rows, need_table, row_of, unit_places};
use crate::unit_heads::UnitHeads;
use rotor_base::{Memory, Name, Row};
use std::alloc::Global;

/// The units of a shortest chain of needs from a unit back to it, behind the first; of all such chains the first in
/// byte order. The one error is want of memory.
pub fn circle(
    alloc: Global,
    sources: &[UnitHeads],
    unit: &[u8],
) -> Result<Option<Row<Name>>, Memory>
    ensures found { IfOk result (λ found. IfSome found (IsCircle sources.now unit.now)) }
    ensures none { IfOk result (λ found. IfNone found (HasNoCircle sources.now unit.now)) }
{
    let places = unit_places(alloc, sources)?;
    let rows = need_rows(alloc, sources, &places)?;
    let table = need_table(alloc, sources, &rows, &places)?;
    let needed = row_of(&rows, &places, unit);
    let mut distances = first_distances(alloc, sources, unit)?;
    for between in 0..sources.len() {
        if any_at(needed, &distances, between) {
            let mut names = Vec::new(alloc);
            push_chain(alloc, &mut names, sources, &distances, unit, between + 1)?;
            return Ok(Some(Row::from_vec(names)));
        }
        distances = more_distances(alloc, &table, &distances, between)?;
    }
    Ok(None)
}
