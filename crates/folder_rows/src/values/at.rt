//! What is at a cursor.

use crate::values::describe_refusal;
use crate::values::project::{files_of, name_of, place_of};
use dependency_kernel::footprint;
use project_reading::read_project;
use rename_project::resolve;
use rotor_base::{Facts, Files, Memory, Place, Refusal};
use std::alloc::Global;
use value_at::{ValueAt, places_of, value_at};

/// The token of a cursor, what is there, and all places of its footprint.
pub fn answer_row(
    alloc: Global,
    name: &str,
    offset: u32,
    folder: &[&str],
) -> Result<String, Memory> {
    match files_of(alloc, folder) {
        Ok(files) => match find_value(alloc, &files, name, offset) {
            Ok(text) => Ok(text),
            Err(why) => describe_refusal(alloc, why),
        },
        Err(_) => Ok(String::from_str(alloc, "the folder is not loaded")?),
    }
}

fn find_value(alloc: Global, files: &Files, name: &str, offset: u32) -> Result<String, Refusal> {
    let read = read_project(alloc, files)?;
    let resolved = resolve(alloc, &read.project)?;
    let Some(place) = place_of(files, &read.tokens, name, offset) else {
        return Ok(String::from_str(alloc, "no token")?);
    };
    let text = match value_at(alloc, &read.project, &resolved.facts, place)? {
        ValueAt::Value(declaration) => list_footprint(alloc, files, &resolved.facts, declaration)?,
        ValueAt::Outside => String::from_str(alloc, "outside")?,
        ValueAt::Blurred => String::from_str(alloc, "blurred")?,
        ValueAt::NoValue => String::from_str(alloc, "no value")?,
    };
    Ok(format!(in alloc; "{}: {}", place.token, text.as_str())?)
}

/// The declaration, and the places of its footprint. Those that declare end with `=`.
fn list_footprint(
    alloc: Global,
    files: &Files,
    facts: &Facts,
    at: Place,
) -> Result<String, Memory> {
    let foot = footprint(alloc, facts, at)?;
    let mut text = format!(in alloc; "{}#{}:", name_of(files, at.file), at.token)?;
    for place in places_of(alloc, facts, &foot)? {
        let sign = if place.is_declaration { "=" } else { "" };
        let token = place.at.token;
        text.push_str(&format!(in alloc; " {}#{token}{sign}", name_of(files, place.at.file))?)?;
    }
    Ok(text)
}
