//! The JSON of positions, ranges and locations.

ghost use Rattle.std.specs.Prelude.{◌≡◌, IfOk, map};
ghost use Rattle.serde_json.specs.Data.{array, string};
ghost use Rattle.serde_json.specs.View.{items_of, view};
ghost use Rattle.report.specs.Json.{text_data};
ghost use Rattle.lsp_answers.specs.Json.{highlight_data, highlight_of, kind_of, location_data, location_of, position_data, range_data, range_of};

use crate::answer::{Highlight, Location};
use rotor_base::Memory;
use serde_json::{Value, json};
use source_edits::TextRange;
use std::alloc::{AllocError, Global};
use text_places::Position;

/// The kind of a highlight that is read (Language Server Protocol 3.17, "DocumentHighlightKind").
const READ: u64 = 2;

/// The kind of a highlight that is written.
const WRITE: u64 = 3;

/// The array of locations.
pub(crate) fn locations_value(alloc: Global, locations: &[Location]) -> Result<Value, Memory>
    ensures { IfOk result (λ value. view value ≡ array (items_of (map location_data locations.now))) }
{
    let mut items = Vec::new(alloc);
    for location in locations {
        items.push(location_value(alloc, location)?)?;
    }
    Ok(Value::Array(items))
}

/// The object of a location.
pub(crate) fn location_value(alloc: Global, location: &Location) -> Result<Value, Memory>
    ensures { IfOk result (λ value. view value ≡ location_data location.now) }
{
    let range = range_value(alloc, location.range)?;
    let uri = string_value(alloc, location.uri.as_str())?;
    Ok(location_object(alloc, range, uri)?)
}

/// The object of a range and of the URI of its document.
fn location_object(alloc: Global, range: Value, uri: Value) -> Result<Value, AllocError>
    ensures { IfOk result (λ value. view value ≡ location_of (view range) (view uri)) }
{
    json!(in alloc; { "range": range, "uri": uri })
}

/// The array of highlights.
pub(crate) fn highlights_value(alloc: Global, highlights: &[Highlight]) -> Result<Value, Memory>
    ensures { IfOk result (λ value. view value ≡ array (items_of (map highlight_data highlights.now))) }
{
    let mut items = Vec::new(alloc);
    for highlight in highlights {
        items.push(highlight_value(alloc, *highlight)?)?;
    }
    Ok(Value::Array(items))
}

/// The object of a highlight.
fn highlight_value(alloc: Global, highlight: Highlight) -> Result<Value, Memory>
    ensures { IfOk result (λ value. view value ≡ highlight_data highlight) }
{
    let range = range_value(alloc, highlight.range)?;
    Ok(highlight_object(alloc, kind_of(highlight), range)?)
}

/// The number of the kind of a highlight: a declaration is written, and other places are read.
fn kind_of(highlight: Highlight) -> u64
    ensures { result ≡ kind_of highlight }
{
    if highlight.is_declaration {
        WRITE
    } else {
        READ
    }
}

/// The object of the number of a kind and of a range.
fn highlight_object(alloc: Global, kind: u64, range: Value) -> Result<Value, AllocError>
    ensures { IfOk result (λ value. view value ≡ highlight_of kind (view range)) }
{
    json!(in alloc; { "kind": kind, "range": range })
}

/// The object of a range.
pub(crate) fn range_value(alloc: Global, range: TextRange) -> Result<Value, Memory>
    ensures { IfOk result (λ value. view value ≡ range_data range) }
{
    let start = position_value(alloc, range.start)?;
    let end = position_value(alloc, range.end)?;
    Ok(range_object(alloc, end, start)?)
}

/// The object of an end and of a start.
fn range_object(alloc: Global, end: Value, start: Value) -> Result<Value, AllocError>
    ensures { IfOk result (λ value. view value ≡ range_of (view end) (view start)) }
{
    json!(in alloc; { "end": end, "start": start })
}

/// The object of a position.
fn position_value(alloc: Global, position: Position) -> Result<Value, AllocError>
    ensures { IfOk result (λ value. view value ≡ position_data position) }
{
    let line = u64::from(position.line);
    let character = u64::from(position.column);
    json!(in alloc; { "character": character, "line": line })
}

/// A text.
pub(crate) fn string_value(alloc: Global, text: &str) -> Result<Value, Memory>
    ensures { IfOk result (λ value. view value ≡ string text.now) }
{
    Ok(Value::String(String::from_str(alloc, text)?))
}

/// A word; bytes that are no UTF-8 are U+FFFD in it.
pub(crate) fn word_text(alloc: Global, bytes: &[u8]) -> Result<Value, Memory>
    ensures { IfOk result (λ value. view value ≡ text_data bytes.now) }
{
    Ok(Value::String(String::from_utf8_lossy(alloc, bytes)?))
}
