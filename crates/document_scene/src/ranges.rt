//! The ranges of many words at once.
ghost use Rattle.std.specs.Prelude.{◌≡◌, ◌<◌, ◌≤◌, ◌+◌, ◌^◌, All, IfOk, length, map, slice_get, take, true};
ghost use Rattle.document_scene.specs.Places.{range_at, span_among};
ghost use Rattle.document_scene.specs.Scene.{view_scene};
ghost use Rattle.source_edits.specs.Ranges.{AreOrdered, range_of};

use crate::places::{bytes_of, span_at};
use crate::scene::Scene;
use rotor_base::Memory;
use source_edits::{Span, TextRange, ranges_of};
use std::alloc::Global;
use text_places::{Counting, position_of};
use value_at::ValuePlace;

/// The ranges of the words at places. For places in order it takes one walk along each source. The one error is want of
/// memory.
#[tactic(auto, using(crate::proofs::Grouping::regrouped, crate::proofs::Grouping::all_front))]
pub(crate) fn ranges_of_words(
    alloc: Global,
    scene: Scene<'_>,
    places: &[ValuePlace],
) -> Result<Vec<TextRange>, Memory>
    ensures { IfOk result (λ list. list.items ≡ map (λ place. range_at (view_scene scene.entry) place.at) places.now) }
{
    let mut ranges = Vec::new(alloc);
    let mut rest = places;
    while let [place, others @ ..] = rest {
        let file = place.at.file;
        let (front, behind) = rest.split_at(1 + front_len(others, file));
        let more = source_ranges(alloc, scene, file, front)?;
        ranges.extend_from_slice(&more)?;
        rest = behind;
    }
    Ok(ranges)
}

/// How many places at the front are in the source of a number.
fn front_len(places: &[ValuePlace], file: u32) -> usize
    ensures within { result ≤ length places.now }
    ensures same { All (λ place. place.at.file ≡ file) (take result places.now) }
{
    let mut len = 0;
    while len < places.len() && places[len].at.file == file {
        len += 1;
    }
    len
}

/// The ranges of the words at places of one source.
fn source_ranges(
    alloc: Global,
    scene: Scene<'_>,
    file: u32,
    places: &[ValuePlace],
) -> Result<Vec<TextRange>, Memory>
    requires { All (λ place. place.at.file ≡ file) places.now }
    ensures { IfOk result (λ list. list.items ≡ map (λ place. range_at (view_scene scene.entry) place.at) places.now) }
{
    let spans = spans_of(alloc, scene, places)?;
    span_ranges(alloc, scene.counting, bytes_of(scene, file), &spans)
}

/// The spans of the words at places.
fn spans_of(alloc: Global, scene: Scene<'_>, places: &[ValuePlace]) -> Result<Vec<Span>, Memory>
    ensures { IfOk result (λ spans. spans.items ≡ map (λ place. span_among (slice_get (view_scene scene.entry).cuts place.at.file) place.at.token) places.now) }
{
    let mut spans = Vec::new(alloc);
    for place in places {
        spans.push(span_at(scene, place.at))?;
    }
    Ok(spans)
}

/// The ranges of spans. It takes one walk, if they are in order.
fn span_ranges(
    alloc: Global,
    counting: Counting,
    bytes: &[u8],
    spans: &[Span],
) -> Result<Vec<TextRange>, Memory>
    requires { length bytes.now + 1 < 2 ^ 32 }
    ensures { IfOk result (λ list. list.items ≡ map (range_of counting bytes.now) spans.now) }
{
    if are_ordered(spans) {
        ranges_of(alloc, counting, bytes, spans)
    } else {
        each_range(alloc, counting, bytes, spans)
    }
}

/// Whether spans are in order and do not overlap.
fn are_ordered(spans: &[Span]) -> bool
    ensures { result ≡ true → AreOrdered 0 spans.now }
{
    let mut end = 0;
    let mut rest = spans;
    while let [span, behind @ ..] = rest {
        if span.start < end || span.end < span.start {
            return false;
        }
        end = span.end;
        rest = behind;
    }
    true
}

/// The ranges of spans, one by one.
fn each_range(
    alloc: Global,
    counting: Counting,
    bytes: &[u8],
    spans: &[Span],
) -> Result<Vec<TextRange>, Memory>
    requires { length bytes.now + 1 < 2 ^ 32 }
    ensures { IfOk result (λ list. list.items ≡ map (range_of counting bytes.now) spans.now) }
{
    let mut ranges = Vec::new(alloc);
    for span in spans {
        ranges.push(span_range(counting, bytes, *span))?;
    }
    Ok(ranges)
}

/// The range of a span.
pub(crate) fn span_range(counting: Counting, bytes: &[u8], span: Span) -> TextRange
    requires { length bytes.now + 1 < 2 ^ 32 }
    ensures { result ≡ range_of counting bytes.now span }
{
    TextRange {
        start: position_of(counting, bytes, span.start),
        end: position_of(counting, bytes, span.end),
    }
}
