//! The JSON of edits.

ghost use Rattle.std.specs.Prelude.{◌≡◌, IfOk, map};
ghost use Rattle.serde_json.specs.Data.{array, no_members, object};
ghost use Rattle.serde_json.specs.View.{items_of, view};
ghost use Rattle.lsp_answers.specs.Json.{changes_members, changes_of, document_data, document_of, edit_data, edit_of, edits_data, identified_data, version_data, versioned_of, word_data, word_of};

use crate::answer::DocumentEdits;
use crate::places::{range_value, string_value, word_text};
use rotor_base::Memory;
use serde_json::{Map, Value, json};
use source_edits::{TextEdit, TextRange};
use std::alloc::{AllocError, Global};

/// The object of a word and its range.
pub(crate) fn word_value(alloc: Global, range: TextRange, word: &[u8]) -> Result<Value, Memory>
    ensures { IfOk result (λ value. view value ≡ word_data range word.now) }
{
    let placeholder = word_text(alloc, word)?;
    let range = range_value(alloc, range)?;
    Ok(word_object(alloc, placeholder, range)?)
}

/// The object of the text of a word and of its range.
fn word_object(alloc: Global, placeholder: Value, range: Value) -> Result<Value, AllocError>
    ensures { IfOk result (λ value. view value ≡ word_of (view placeholder) (view range)) }
{
    json!(in alloc; { "placeholder": placeholder, "range": range })
}

/// The object of the edits of documents, under their URIs.
pub(crate) fn changes_value(alloc: Global, documents: &[DocumentEdits]) -> Result<Value, Memory>
    ensures { IfOk result (λ value. view value ≡ changes_of (object (changes_members no_members documents.now))) }
{
    let mut members = Map::new(alloc);
    for document in documents {
        let edits = edits_value(alloc, &document.edits)?;
        serde_json::put(&mut members, alloc, document.uri.as_str(), edits)?;
    }
    Ok(changes_object(alloc, Value::Object(members))?)
}

/// The object with the edits of each document.
fn changes_object(alloc: Global, changes: Value) -> Result<Value, AllocError>
    ensures { IfOk result (λ value. view value ≡ changes_of (view changes)) }
{
    json!(in alloc; { "changes": changes })
}

/// The object of the edits of documents, in order and with their versions.
pub(crate) fn versioned_value(alloc: Global, documents: &[DocumentEdits]) -> Result<Value, Memory>
    ensures { IfOk result (λ value. view value ≡ versioned_of (array (items_of (map document_data documents.now)))) }
{
    let mut items = Vec::new(alloc);
    for document in documents {
        items.push(document_value(alloc, document)?)?;
    }
    Ok(versioned_object(alloc, Value::Array(items))?)
}

/// The object with the list of the documents' edits.
fn versioned_object(alloc: Global, documents: Value) -> Result<Value, AllocError>
    ensures { IfOk result (λ value. view value ≡ versioned_of (view documents)) }
{
    json!(in alloc; { "documentChanges": documents })
}

/// The object of the edits of a document.
fn document_value(alloc: Global, document: &DocumentEdits) -> Result<Value, Memory>
    ensures { IfOk result (λ value. view value ≡ document_data document.now) }
{
    let edits = edits_value(alloc, &document.edits)?;
    let uri = string_value(alloc, document.uri.as_str())?;
    let identified = identified_object(alloc, uri, version_value(document.version))?;
    Ok(document_object(alloc, edits, identified)?)
}

/// The object of some edits and of the document that they change.
fn document_object(alloc: Global, edits: Value, document: Value) -> Result<Value, AllocError>
    ensures { IfOk result (λ value. view value ≡ document_of (view edits) (view document)) }
{
    json!(in alloc; { "edits": edits, "textDocument": document })
}

/// The object that says which document, and which version of it.
fn identified_object(alloc: Global, uri: Value, version: Value) -> Result<Value, AllocError>
    ensures { IfOk result (λ value. view value ≡ identified_data (view uri) (view version)) }
{
    json!(in alloc; { "uri": uri, "version": version })
}

/// The version of a document; of one that is not open, `null`.
fn version_value(version: Option<i64>) -> Value
    ensures { view result ≡ version_data version }
{
    match version {
        Some(number) => Value::from(number),
        None => Value::Null,
    }
}

/// The array of edits.
fn edits_value(alloc: Global, edits: &[TextEdit]) -> Result<Value, Memory>
    ensures { IfOk result (λ value. view value ≡ edits_data edits.now) }
{
    let mut items = Vec::new(alloc);
    for edit in edits {
        items.push(edit_value(alloc, edit)?)?;
    }
    Ok(Value::Array(items))
}

/// The object of an edit.
fn edit_value(alloc: Global, edit: &TextEdit) -> Result<Value, Memory>
    ensures { IfOk result (λ value. view value ≡ edit_data edit.now) }
{
    let text = word_text(alloc, edit.text.as_bytes())?;
    let range = range_value(alloc, edit.range)?;
    Ok(edit_object(alloc, text, range)?)
}

/// The object of a new text and of the range that it replaces.
fn edit_object(alloc: Global, text: Value, range: Value) -> Result<Value, AllocError>
    ensures { IfOk result (λ value. view value ≡ edit_of (view text) (view range)) }
{
    json!(in alloc; { "newText": text, "range": range })
}
