//! What units need.
ghost use Rattle.std.specs.Prelude.{◌≡◌, ◌++◌, ◌∷◌, [], IfOk, OnOk, map};
ghost use Rattle.std.specs.List.{list_any};
ghost use Rattle.std.specs.Str.{bytes_eq};
ghost use Rattle.need_chains.specs.Marks.{marked_at};
ghost use Rattle.need_chains.specs.Needs.{heads_in as heads_in_of, needs as needed_of};

use crate::distances::is_number;
use crate::unit_heads::UnitHeads;
use rotor_base::{Memory, Name};
use std::alloc::Global;

/// Of each source, whether it is at this distance and a unit needs its unit.
pub(crate) fn needed_at(
    alloc: Global,
    sources: &[UnitHeads],
    distances: &[Option<usize>],
    unit: &[u8],
    needs: usize,
) -> Result<Vec<bool>, Memory>
    ensures { IfOk result (λ marks. marks.items ≡ marked_at needs (map (λ s. needed_of sources.now unit.now s.unit) sources.now) distances.now) }
{
    let heads = heads_in(alloc, sources, unit)?;
    let mut marks = Vec::new(alloc);
    let mut left = distances;
    for source in sources {
        match left {
            [] => return Ok(marks),
            [distance, rest @ ..] => {
                let other = source.unit.as_bytes();
                marks.push(is_number(*distance, needs) && is_needed(&heads, sources, unit, other))?;
                left = rest;
            }
        }
    }
    Ok(marks)
}

/// Whether a unit of these heads needs another.
fn is_needed(heads: &[&[u8]], _sources: &[UnitHeads], unit: &[u8], other: &[u8]) -> bool
    requires { map (λ head. head.now) heads.now ≡ heads_in_of _sources.now unit.now }
    ensures { result ≡ needed_of _sources.now unit.now other.now }
{
    is_among(heads, other) && other != unit
}

/// Whether a name is one of these.
fn is_among(names: &[&[u8]], name: &[u8]) -> bool
    ensures { result ≡ list_any (λ head. bytes_eq head name.now) (map (λ head. head.now) names.now) }
{
    for other in names {
        if *other == name {
            return true;
        }
    }
    false
}

/// The heads of the sources of a unit.
fn heads_in<'a>(
    alloc: Global,
    sources: &'a [UnitHeads],
    unit: &[u8],
) -> Result<Vec<&'a [u8]>, Memory>
    ensures { IfOk result (λ heads. map (λ head. head.now) heads.items ≡ heads_in_of sources.now unit.now) }
{
    let mut heads = Vec::new(alloc);
    for source in sources {
        push_source(&mut heads, source, unit)?;
    }
    Ok(heads)
}

/// Adds the heads of a source, if it is one of a unit.
fn push_source<'a>(
    heads: &mut Vec<&'a [u8]>,
    source: &'a UnitHeads,
    unit: &[u8],
) -> Result<(), Memory>
    ensures { OnOk result (map (λ head. head.now) heads.new.items ≡ map (λ head. head.now) heads.old.items ++ heads_in_of (source.now ∷ []) unit.now) }
{
    if source.unit.as_bytes() == unit {
        push_heads(heads, source.heads.as_slice())?;
    }
    Ok(())
}

/// Adds heads.
fn push_heads<'a>(heads: &mut Vec<&'a [u8]>, more: &'a [Name]) -> Result<(), Memory>
    ensures { OnOk result (map (λ head. head.now) heads.new.items ≡ map (λ head. head.now) heads.old.items ++ more.now) }
{
    for head in more {
        heads.push(head.as_bytes())?;
    }
    Ok(())
}
