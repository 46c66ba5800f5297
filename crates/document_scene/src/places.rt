//! Places, as ranges of documents.
ghost use Rattle.std.specs.Prelude.{◌≡◌, ◌==◌, ◌<◌, ◌+◌, ◌^◌, IfOk, Some, filter, length, map, slice_get};
ghost use Rattle.refusal_words.specs.Cut.{view_cut};
ghost use Rattle.document_scene.specs.Places.{bytes_among, highlights_of as highlights_for, is_wanted, location_at as location_at_of, location_words, locations_of as locations_for, range_at as range_at_of, span_among};
ghost use Rattle.document_scene.specs.Scene.{view_scene};
ghost use Rattle.source_edits.specs.Ranges.{range_of};

use crate::ranges::{ranges_of_words, span_range};
use crate::scene::Scene;
use crate::uri::uri_at;
use lsp_answers::{Highlight, Location};
use refusal_words::{CutSource, word_end, word_start};
use rotor_base::{Memory, Place};
use source_edits::{Span, TextRange};
use std::alloc::Global;
use value_at::ValuePlace;

/// The range of the word of a token; behind the last token, the end of the source. It takes no memory.
pub fn range_at(scene: Scene<'_>, place: Place) -> TextRange
    ensures { result ≡ range_at_of (view_scene scene.entry) place }
{
    span_range(
        scene.counting,
        bytes_of(scene, place.file),
        span_at(scene, place),
    )
}

/// The bytes of the source of a number; without one, none.
pub(crate) fn bytes_of<'a>(scene: Scene<'a>, file: u32) -> &'a [u8]
    ensures value { result.now ≡ bytes_among (slice_get (view_scene scene.entry).cuts file) }
    ensures few { length result.now + 1 < 2 ^ 32 }
{
    match scene.cuts.get(file as usize) {
        Some(cut) => cut.bytes,
        None => &[],
    }
}

/// The span of the word of a token.
pub(crate) fn span_at(scene: Scene<'_>, place: Place) -> Span
    ensures { result ≡ span_among (slice_get (view_scene scene.entry).cuts place.file) place.token }
{
    match scene.cuts.get(place.file as usize) {
        Some(cut) => cut_span(cut, place.token),
        None => Span { start: 0, end: 0 },
    }
}

/// The span of the word of a token of a source, by its number from 1; without one, the end of the source.
fn cut_span(cut: &CutSource<'_>, number: u32) -> Span
    ensures { result ≡ span_among (Some (view_cut cut.now)) number }
{
    match cut.tokens.get(number.saturating_sub(1) as usize) {
        Some(token) => Span {
            start: word_start(token),
            end: word_end(token),
        },
        None => {
            let end = cut.bytes.len() as u32;
            Span { start: end, end }
        }
    }
}

/// The location of the word of a token. The one error is want of memory.
pub fn location_at(alloc: Global, scene: Scene<'_>, place: Place) -> Result<Location, Memory>
    ensures { IfOk result (λ location. location_words location ≡ location_at_of (view_scene scene.entry) place) }
{
    Ok(Location {
        uri: uri_at(alloc, scene, place.file)?,
        range: range_at(scene, place),
    })
}

/// The locations of the places of a value, in order; without its declarations, if they are not wanted. For places in
/// order it takes one walk along each source. The one error is want of memory.
pub fn locations_of(
    alloc: Global,
    scene: Scene<'_>,
    places: &[ValuePlace],
    with_declarations: bool,
) -> Result<Vec<Location>, Memory>
    ensures { IfOk result (λ list. map location_words list.items ≡ locations_for (view_scene scene.entry) with_declarations places.now) }
{
    let wanted = wanted_places(alloc, places, with_declarations)?;
    let ranges = ranges_of_words(alloc, scene, &wanted)?;
    let mut locations = Vec::new(alloc);
    for at in 0..wanted.len() {
        locations.push(Location {
            uri: uri_at(alloc, scene, wanted[at].at.file)?,
            range: ranges[at],
        })?;
    }
    Ok(locations)
}

/// The places that are wanted.
fn wanted_places(
    alloc: Global,
    places: &[ValuePlace],
    with_declarations: bool,
) -> Result<Vec<ValuePlace>, Memory>
    ensures { IfOk result (λ list. list.items ≡ filter (is_wanted with_declarations) places.now) }
{
    let mut wanted = Vec::new(alloc);
    for place in places {
        if with_declarations || !place.is_declaration {
            wanted.push(*place)?;
        }
    }
    Ok(wanted)
}

/// The highlights of the places of a value in the source of a number, in order. For places in order it takes one walk
/// along the source. The one error is want of memory.
pub fn highlights_of(
    alloc: Global,
    scene: Scene<'_>,
    places: &[ValuePlace],
    file: u32,
) -> Result<Vec<Highlight>, Memory>
    ensures { IfOk result (λ list. list.items ≡ highlights_for (view_scene scene.entry) file places.now) }
{
    let here = places_in(alloc, places, file)?;
    let ranges = ranges_of_words(alloc, scene, &here)?;
    let mut highlights = Vec::new(alloc);
    for at in 0..here.len() {
        highlights.push(Highlight {
            range: ranges[at],
            is_declaration: here[at].is_declaration,
        })?;
    }
    Ok(highlights)
}

/// The places in the source of a number.
fn places_in(alloc: Global, places: &[ValuePlace], file: u32) -> Result<Vec<ValuePlace>, Memory>
    ensures { IfOk result (λ list. list.items ≡ filter (λ q. q.at.file == file) places.now) }
{
    let mut here = Vec::new(alloc);
    for place in places {
        if place.at.file == file {
            here.push(*place)?;
        }
    }
    Ok(here)
}
