//! The JSON of messages.
ghost use Rattle.std.specs.Prelude.{◌≡◌, IfOk, map};
ghost use Rattle.serde_json.specs.View.{view};
ghost use Rattle.report.specs.Json.{text_data};
ghost use Rattle.messages.specs.Json.{bare_data, end_column as end_column_of, helped_data, json_of, message_data, messages_data, note_data, note_of, notes_data, placed_data, whole_data};

use crate::kinds::kind_text;
use crate::parts::{Message, Note, Spot};
use crate::printed::severity_text;
use rotor_base::Memory;
use serde_json::{Value, json};
use std::alloc::{AllocError, Global};

/// The JSON of some messages: an array of an object for each, in compact form with keys in byte order, and LF. Lines
/// and columns count from 1, columns in bytes. Bytes that are no UTF-8 are U+FFFD. The one error is want of memory.
pub fn json_text(alloc: Global, messages: &[Message]) -> Result<Vec<u8>, Memory>
    ensures { IfOk result (λ text. text.items ≡ json_of messages.now) }
{
    let value = messages_value(alloc, messages)?;
    let mut text = value.to_vec(alloc)?;
    text.push(b'\n')?;
    Ok(text)
}

/// The array of messages.
fn messages_value(alloc: Global, messages: &[Message]) -> Result<Value, Memory>
    ensures { IfOk result (λ value. view value ≡ messages_data messages.now) }
{
    let mut items = Vec::new(alloc);
    for message in messages {
        items.push(message_value(alloc, message)?)?;
    }
    Ok(Value::Array(items))
}

/// The object of a message.
fn message_value(alloc: Global, message: &Message) -> Result<Value, Memory>
    ensures { IfOk result (λ value. view value ≡ message_data message.now) }
{
    let code = text_value(alloc, kind_text(message.kind).as_bytes())?;
    let severity = text_value(alloc, severity_text(message.severity).as_bytes())?;
    let text = text_value(alloc, message.text.as_slice())?;
    let related = notes_value(alloc, message.notes.as_slice())?;
    match (&message.at, &message.help) {
        (None, None) => Ok(bare_value(alloc, code, text, related, severity)?),
        (None, Some(help)) => {
            let help = text_value(alloc, help.as_slice())?;
            Ok(helped_value(alloc, code, help, text, related, severity)?)
        }
        (Some(spot), None) => {
            let file = text_value(alloc, spot.file.as_slice())?;
            Ok(placed_value(alloc, code, spot, file, text, related, severity)?)
        }
        (Some(spot), Some(help)) => {
            let file = text_value(alloc, spot.file.as_slice())?;
            let help = text_value(alloc, help.as_slice())?;
            Ok(whole_value(alloc, code, spot, file, help, text, related, severity)?)
        }
    }
}

/// The object of a message without a place and a help.
fn bare_value(
    alloc: Global,
    code: Value,
    message: Value,
    related: Value,
    severity: Value,
) -> Result<Value, AllocError>
    ensures { IfOk result (λ value. view value ≡ bare_data (view code) (view message) (view related) (view severity)) }
{
    json!(in alloc; {
        "code": code,
        "message": message,
        "related": related,
        "severity": severity
    })
}

/// The object of a message without a place.
fn helped_value(
    alloc: Global,
    code: Value,
    help: Value,
    message: Value,
    related: Value,
    severity: Value,
) -> Result<Value, AllocError>
    ensures { IfOk result (λ value. view value ≡ helped_data (view code) (view help) (view message) (view related) (view severity)) }
{
    json!(in alloc; {
        "code": code,
        "help": help,
        "message": message,
        "related": related,
        "severity": severity
    })
}

/// The object of a message without a help.
fn placed_value(
    alloc: Global,
    code: Value,
    spot: &Spot,
    file: Value,
    message: Value,
    related: Value,
    severity: Value,
) -> Result<Value, AllocError>
    ensures { IfOk result (λ value. view value ≡ placed_data (view code) spot.now (view file) (view message) (view related) (view severity)) }
{
    let line = u64::from(spot.line);
    let column = u64::from(spot.column);
    let end = end_column(spot);
    json!(in alloc; {
        "code": code,
        "column": column,
        "endColumn": end,
        "file": file,
        "line": line,
        "message": message,
        "related": related,
        "severity": severity
    })
}

/// The object of a message with a place and a help.
fn whole_value(
    alloc: Global,
    code: Value,
    spot: &Spot,
    file: Value,
    help: Value,
    message: Value,
    related: Value,
    severity: Value,
) -> Result<Value, AllocError>
    ensures { IfOk result (λ value. view value ≡ whole_data (view code) spot.now (view file) (view help) (view message) (view related) (view severity)) }
{
    let line = u64::from(spot.line);
    let column = u64::from(spot.column);
    let end = end_column(spot);
    json!(in alloc; {
        "code": code,
        "column": column,
        "endColumn": end,
        "file": file,
        "help": help,
        "line": line,
        "message": message,
        "related": related,
        "severity": severity
    })
}

/// The array of notes.
fn notes_value(alloc: Global, notes: &[Note]) -> Result<Value, Memory>
    ensures { IfOk result (λ value. view value ≡ notes_data notes.now) }
{
    let mut items = Vec::new(alloc);
    for note in notes {
        items.push(note_value(alloc, note)?)?;
    }
    Ok(Value::Array(items))
}

/// The object of a note.
fn note_value(alloc: Global, note: &Note) -> Result<Value, Memory>
    ensures { IfOk result (λ value. view value ≡ note_data note.now) }
{
    let file = text_value(alloc, note.at.file.as_slice())?;
    let text = text_value(alloc, note.text.as_slice())?;
    Ok(noted_value(alloc, &note.at, file, text)?)
}

/// The object of a note, of its parts.
fn noted_value(alloc: Global, spot: &Spot, file: Value, message: Value) -> Result<Value, AllocError>
    ensures { IfOk result (λ value. view value ≡ note_of spot.now (view file) (view message)) }
{
    let line = u64::from(spot.line);
    let column = u64::from(spot.column);
    let end = end_column(spot);
    json!(in alloc; {
        "column": column,
        "endColumn": end,
        "file": file,
        "line": line,
        "message": message
    })
}

/// The column behind a stretch, which has at least one byte.
fn end_column(spot: &Spot) -> u64
    ensures { result ≡ end_column_of spot.now }
{
    u64::from(spot.column) + u64::from(spot.width).max(1)
}

/// A text; bytes that are no UTF-8 are U+FFFD in it.
fn text_value(alloc: Global, bytes: &[u8]) -> Result<Value, Memory>
    ensures { IfOk result (λ value. view value ≡ text_data bytes.now) }
{
    Ok(Value::String(String::from_utf8_lossy(alloc, bytes)?))
}
