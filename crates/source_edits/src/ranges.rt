//! The ranges of spans.

ghost use Rattle.std.specs.Prelude.{◌≡◌, ◌+◌, ◌<◌, ◌^◌, IfOk, length, map};
ghost use Rattle.std.specs.List.{flat_map};
ghost use Rattle.source_edits.specs.Ranges.{AreOrdered, ends_of, paired, range_of};

use rotor_base::Memory;
use std::alloc::Global;
use text_places::{Counting, Position, positions_of};

/// A stretch of a source, from the byte `start` up to the byte `end`, both from 0.
#[derive(Clone, Copy, Debug, PartialEq, Eq)]
pub struct Span {
    pub start: u32,
    pub end: u32,
}

/// A stretch of a text, from the position `start` up to the position `end`.
#[derive(Clone, Copy, Debug, PartialEq, Eq)]
pub struct TextRange {
    pub start: Position,
    pub end: Position,
}

/// The ranges of some spans, which are in order and do not overlap. It takes one walk along the source. `Memory` is the
/// only error.
pub fn ranges_of(
    alloc: Global,
    counting: Counting,
    source: &[u8],
    spans: &[Span],
) -> Result<Vec<TextRange>, Memory>
    requires room { length source.now + 1 < 2 ^ 32 }
    requires ordered { AreOrdered 0 spans.now }
    ensures { IfOk result (λ ranges. ranges.items ≡ map (range_of counting source.now) spans.now) }
{
    let offsets = ends_of(alloc, spans)?;
    let positions = positions_of(alloc, counting, source, &offsets)?;
    pair_positions(alloc, &positions)
}

/// The offsets at which the spans begin and end, one after the other.
fn ends_of(alloc: Global, spans: &[Span]) -> Result<Vec<u32>, Memory>
    ensures { IfOk result (λ offsets. offsets.items ≡ ends_of spans.now) }
{
    let mut offsets = Vec::new(alloc);
    for span in spans {
        offsets.push(span.start)?;
        offsets.push(span.end)?;
    }
    Ok(offsets)
}

/// The ranges from each first of two positions up to the second.
fn pair_positions(alloc: Global, positions: &[Position]) -> Result<Vec<TextRange>, Memory>
    ensures { IfOk result (λ ranges. ranges.items ≡ paired positions.now) }
{
    let mut ranges = Vec::new(alloc);
    let mut rest = positions;
    while let [start, end, behind @ ..] = rest {
        ranges.push(TextRange {
            start: *start,
            end: *end,
        })?;
        rest = behind;
    }
    Ok(ranges)
}
