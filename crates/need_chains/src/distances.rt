//! The fewest needs that lead from units to another.
ghost use Rattle.std.specs.Prelude.{◌≡◌, ◌<◌, IfOk, None, Some, cond, get_or, map};
ghost use Rattle.std.specs.Str.{bytes_eq};
ghost use Rattle.need_chains.specs.Distances.{any_at as any_at_of, farther as farther_of, farther_one, is_number as is_number_of};

use crate::unit_heads::UnitHeads;
use rotor_base::Memory;
use std::alloc::Global;

/// Of each source, no needs if its unit is this one.
pub(crate) fn first_distances(
    alloc: Global,
    sources: &[UnitHeads],
    unit: &[u8],
) -> Result<Vec<Option<usize>>, Memory>
    ensures { IfOk result (λ distances. distances.items ≡ map (λ s. cond (bytes_eq s.unit unit.now) (Some 0) None) sources.now) }
{
    let mut distances = Vec::new(alloc);
    for source in sources {
        distances.push(if source.unit.as_bytes() == unit {
            Some(0)
        } else {
            None
        })?;
    }
    Ok(distances)
}

/// The distances, and one need more where a source has none and needs one at this distance.
pub(crate) fn more_distances(
    alloc: Global,
    table: &[Vec<usize>],
    distances: &[Option<usize>],
    needs: usize,
) -> Result<Vec<Option<usize>>, Memory>
    requires { needs < 18446744073709551615 }
    ensures { IfOk result (λ more. more.items ≡ farther_of needs distances.now (map (λ row. row.items) table.now) distances.now) }
{
    let mut more = Vec::new(alloc);
    let mut left = distances;
    for row in table {
        match left {
            [] => return Ok(more),
            [distance, rest @ ..] => {
                more.push(more_distance(row, distances, needs, *distance))?;
                left = rest;
            }
        }
    }
    Ok(more)
}

/// The distance of a source that needs these sources.
fn more_distance(
    row: &[usize],
    distances: &[Option<usize>],
    needs: usize,
    distance: Option<usize>,
) -> Option<usize>
    requires { needs < 18446744073709551615 }
    ensures { result ≡ farther_one needs distances.now row.now distance }
{
    match distance {
        None if any_at(row, distances, needs) => Some(needs + 1),
        _ => distance,
    }
}

/// Whether one of these sources is at this distance.
pub(crate) fn any_at(row: &[usize], distances: &[Option<usize>], needs: usize) -> bool
    ensures { result ≡ any_at_of needs distances.now row.now }
{
    for at in row {
        if is_at(distances, *at, needs) {
            return true;
        }
    }
    false
}

/// Whether a source is at this distance.
fn is_at(distances: &[Option<usize>], at: usize, needs: usize) -> bool
    ensures { result ≡ is_number_of needs (get_or distances.now at None) }
{
    match distances.get(at) {
        Some(distance) => is_number(*distance, needs),
        None => false,
    }
}

/// Whether a distance is this one.
pub(crate) fn is_number(distance: Option<usize>, needs: usize) -> bool
    ensures { result ≡ is_number_of needs distance }
{
    match distance {
        Some(found) => found == needs,
        None => false,
    }
}
