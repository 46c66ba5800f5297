//! The sources that units need, as rows of positions.
ghost use Rattle.std.specs.Prelude.{◌≡◌, IfOk, OnOk, length, map, replicate, []};
ghost use Rattle.name_tables.specs.Names.{at};
ghost use Rattle.need_chains.specs.Rows.{AddsHead, AddsHeads, AddsSource, ArePlaces, AreRows, row_at};

use crate::unit_heads::UnitHeads;
use name_tables::Names;
use rotor_base::{Memory, Name};
use std::alloc::Global;

/// The position of a source of each unit, by its name.
pub(crate) fn unit_places(alloc: Global, sources: &[UnitHeads]) -> Result<Names<usize>, Memory>
    ensures { IfOk result (λ places. ArePlaces places sources.now) }
{
    let mut places = Names::new(alloc);
    for at in 0..sources.len() {
        places.put(alloc, sources[at].unit.as_bytes(), at)?;
    }
    Ok(places)
}

/// At the place of each unit, the places of the units that it needs.
pub(crate) fn need_rows(
    alloc: Global,
    sources: &[UnitHeads],
    places: &Names<usize>,
) -> Result<Vec<Vec<usize>>, Memory>
    requires { ArePlaces places.now sources.now }
    ensures { IfOk result (λ rows. AreRows sources.now (λ unit. row_at (map (λ row. row.items) rows.items) (at places.now unit))) }
{
    let mut rows = empty_rows(alloc, sources.len())?;
    for source in sources {
        push_source(&mut rows, places, source)?;
    }
    Ok(rows)
}

/// So many empty rows.
fn empty_rows(alloc: Global, count: usize) -> Result<Vec<Vec<usize>>, Memory>
    ensures { IfOk result (λ rows. map (λ row. row.items) rows.items ≡ replicate count []) }
{
    let mut rows = Vec::new(alloc);
    for _row in 0..count {
        rows.push(Vec::new(alloc))?;
    }
    Ok(rows)
}

/// Adds the needs of a source to the row of its unit.
fn push_source(
    rows: &mut [Vec<usize>],
    places: &Names<usize>,
    source: &UnitHeads,
) -> Result<(), Memory>
    ensures size { length rows.new ≡ length rows.old }
    ensures row { OnOk result (AddsSource places.now source.now rows.old rows.new) }
{
    let unit = source.unit.as_bytes();
    if let Some(user) = places.get(unit) {
        if user < rows.len() {
            push_needs(&mut rows[user], places, unit, source.heads.as_slice())?;
        }
    }
    Ok(())
}

/// Adds the places of the heads that name other units.
fn push_needs(
    row: &mut Vec<usize>,
    places: &Names<usize>,
    unit: &[u8],
    heads: &[Name],
) -> Result<(), Memory>
    ensures { OnOk result (AddsHeads places.now unit.now heads.now row.old.items row.new.items) }
{
    for head in heads {
        push_need(row, places, unit, head.as_bytes())?;
    }
    Ok(())
}

/// Adds the place of a head, if it names another unit.
fn push_need(
    row: &mut Vec<usize>,
    places: &Names<usize>,
    unit: &[u8],
    head: &[u8],
) -> Result<(), Memory>
    ensures { OnOk result (AddsHead places.now unit.now head.now row.old.items row.new.items) }
{
    if head == unit {
        return Ok(());
    }
    if let Some(needed) = places.get(head) {
        row.push(needed)?;
    }
    Ok(())
}

/// The row of a unit.
pub(crate) fn row_of<'a>(rows: &'a [Vec<usize>], places: &Names<usize>, unit: &[u8]) -> &'a [usize]
    ensures { result.now ≡ row_at (map (λ row. row.items) rows.now) (at places.now unit.now) }
{
    match places.get(unit) {
        Some(place) if place < rows.len() => &rows[place],
        _ => &[],
    }
}

/// The row of the unit of each source.
pub(crate) fn need_table(
    alloc: Global,
    sources: &[UnitHeads],
    rows: &[Vec<usize>],
    places: &Names<usize>,
) -> Result<Vec<Vec<usize>>, Memory>
    ensures { IfOk result (λ table. map (λ row. row.items) table.items ≡ map (λ s. row_at (map (λ row. row.items) rows.now) (at places.now s.unit)) sources.now) }
{
    let mut table = Vec::new(alloc);
    for source in sources {
        table.push(row_of(rows, places, source.unit.as_bytes()).to_vec(alloc)?)?;
    }
    Ok(table)
}
