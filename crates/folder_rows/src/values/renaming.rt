//! The edits of a renaming, as the response of a language server.

use crate::values::describe_refusal;
use crate::values::project::{files_of, name_of, place_of};
use editor_renaming::{EditorRenaming, rename_at};
use lsp_answers::{Answer, DocumentEdits, Id, response_text};
use project_reading::read_project;
use rename_project::resolve;
use renaming_edits::FileEdits;
use report::json;
use rotor_base::{Files, Memory, Outcome, Refusal};
use std::alloc::Global;
use text_places::Counting;

pub fn answer_row(
    alloc: Global,
    counting: Counting,
    name: &str,
    offset: u32,
    new: &[u8],
    folder: &[&str],
) -> Result<String, Memory> {
    match files_of(alloc, folder) {
        Ok(files) => match rename_value(alloc, counting, &files, name, offset, new) {
            Ok(text) => Ok(text),
            Err(why) => describe_refusal(alloc, why),
        },
        Err(_) => Ok(String::from_str(alloc, "the folder is not loaded")?),
    }
}

fn rename_value(
    alloc: Global,
    counting: Counting,
    files: &Files,
    name: &str,
    offset: u32,
    new: &[u8],
) -> Result<String, Refusal> {
    let read = read_project(alloc, files)?;
    let resolved = resolve(alloc, &read.project)?;
    let Some(place) = place_of(files, &read.tokens, name, offset) else {
        return Ok(String::from_str(alloc, "no token")?);
    };
    match rename_at(alloc, counting, files, &read, &resolved, place, new)? {
        EditorRenaming::Edits { done: _, edits } => Ok(edits_text(alloc, files, edits)?),
        EditorRenaming::NotText { file } => {
            Ok(format!(in alloc; "not UTF-8: {}", name_of(files, file))?)
        }
        EditorRenaming::Refused(why) => Ok(refusal_text(alloc, files, why)?),
        EditorRenaming::NoValue(_) => Ok(String::from_str(alloc, "no value")?),
    }
}

/// The response that has the edits, each source with its name as its URI.
fn edits_text(alloc: Global, files: &Files, list: Vec<FileEdits>) -> Result<String, Memory> {
    let mut documents = Vec::new(alloc);
    for source in list {
        documents.push(DocumentEdits {
            uri: String::from_str(alloc, name_of(files, source.file))?,
            version: None,
            edits: source.edits,
        })?;
    }
    let reply = Ok(Answer::VersionedChanges(documents));
    let text = response_text(alloc, Some(&Id::Number(1)), &reply)?;
    Ok(String::from_utf8_lossy(alloc, &text)?)
}

/// The JSON of a refusal.
fn refusal_text(alloc: Global, files: &Files, why: Refusal) -> Result<String, Memory> {
    let mut names = Vec::new(alloc);
    for source in files.entries() {
        names.push(String::from_str(alloc, source.name.as_str())?)?;
    }
    let text = json(alloc, &names, &Outcome::Refused(why))?;
    let text = String::from_utf8_lossy(alloc, &text)?;
    Ok(String::from_str(alloc, text.trim_end())?)
}
