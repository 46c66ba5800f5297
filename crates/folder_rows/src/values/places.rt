//! The places of a value, as the response of a language server.

use crate::values::describe_refusal;
use crate::values::project::{files_of, name_of, place_of};
use dependency_kernel::footprint;
use lsp_answers::{Answer, Id, Location, response_text};
use project_reading::{Read, read_project};
use rename_project::resolve;
use rotor_base::{Facts, Files, Memory, Place, Refusal};
use source_edits::{Span, TextRange, ranges_of};
use std::alloc::Global;
use text_places::Counting;
use value_at::{ValueAt, places_of, value_at};

pub fn answer_row(
    alloc: Global,
    counting: Counting,
    name: &str,
    offset: u32,
    folder: &[&str],
) -> Result<String, Memory> {
    match files_of(alloc, folder) {
        Ok(files) => match find_places(alloc, counting, &files, name, offset) {
            Ok(text) => Ok(text),
            Err(why) => describe_refusal(alloc, why),
        },
        Err(_) => Ok(String::from_str(alloc, "the folder is not loaded")?),
    }
}

fn find_places(
    alloc: Global,
    counting: Counting,
    files: &Files,
    name: &str,
    offset: u32,
) -> Result<String, Refusal> {
    let read = read_project(alloc, files)?;
    let resolved = resolve(alloc, &read.project)?;
    let Some(place) = place_of(files, &read.tokens, name, offset) else {
        return Ok(String::from_str(alloc, "no token")?);
    };
    match value_at(alloc, &read.project, &resolved.facts, place)? {
        ValueAt::Value(declaration) => {
            Ok(list_locations(alloc, counting, files, &read, &resolved.facts, declaration)?)
        }
        ValueAt::Outside | ValueAt::Blurred | ValueAt::NoValue => {
            Ok(String::from_str(alloc, "no value")?)
        }
    }
}

fn list_locations(
    alloc: Global,
    counting: Counting,
    files: &Files,
    read: &Read,
    facts: &Facts,
    at: Place,
) -> Result<String, Memory> {
    let foot = footprint(alloc, facts, at)?;
    let mut locations = Vec::new(alloc);
    for place in places_of(alloc, facts, &foot)? {
        if let Some(range) = range_of(alloc, counting, files, read, place.at)? {
            locations.push(Location {
                uri: String::from_str(alloc, name_of(files, place.at.file))?,
                range,
            })?;
        }
    }
    let reply = Ok(Answer::References(locations));
    let text = response_text(alloc, Some(&Id::Number(1)), &reply)?;
    Ok(String::from_utf8_lossy(alloc, &text)?)
}

/// The range of a token.
fn range_of(
    alloc: Global,
    counting: Counting,
    files: &Files,
    read: &Read,
    place: Place,
) -> Result<Option<TextRange>, Memory> {
    let Some(source) = files.entries().get(place.file as usize) else {
        return Ok(None);
    };
    let Some(tokens) = read.tokens.as_slice().get(place.file as usize) else {
        return Ok(None);
    };
    let number = place.token as usize;
    if number == 0 || tokens.len() < number {
        return Ok(None);
    }
    let token = &tokens[number - 1];
    if token.end < token.start {
        return Ok(None);
    }
    let spans = [Span {
        start: token.start,
        end: token.end,
    }];
    let ranges = ranges_of(alloc, counting, source.bytes.as_slice(), &spans)?;
    Ok(ranges.first().copied())
}
