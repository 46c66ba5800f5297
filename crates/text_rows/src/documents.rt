//! The rows of the kind `document`. Their pieces are percent-encoded. The row `uri|URI` prints the folder and the name
//! that a URI names, and the URI that is written for them. `message|BYTES` prints the message that bytes write.
//! `folder|FILES|STEPS` prints the project of a folder with open documents: a file is `NAME=TEXT`; a step is
//! `+NAME=TEXT` for a document that is opened, `*NAME=TEXT` for a whole change, `?NAME` for a part of one, and `-NAME`
//! for one that is closed.

use document_uris::{read_uri, write_uri};
use open_documents::{Document, Documents, OpenText, OpenTree, Workspace};
use project_load::load;
use requests::{message_of, read_json};
use rotor_base::{Memory, SourceFile};
use row_pieces::{decode_bytes, decode_source, decode_text, encode_bytes};
use std::alloc::Global;
use tree_io::{SoundTree, have_distinct_names};

/// The path of the one folder.
const FOLDER: &str = "/data";

/// What a row prints.
pub fn answer_row(alloc: Global, row: &[&str]) -> Result<String, Memory> {
    match row {
        ["uri", uri] => uri_answer(alloc, &decode_bytes(alloc, uri)?),
        ["message", bytes] => message_answer(alloc, &decode_bytes(alloc, bytes)?),
        ["folder", files, steps] => folder_answer(alloc, files, steps),
        _ => Ok(String::from_str(alloc, "no row\n")?),
    }
}

fn uri_answer(alloc: Global, bytes: &[u8]) -> Result<String, Memory> {
    let uri = String::from_utf8_lossy(alloc, bytes)?;
    match read_uri(alloc, uri.as_str())? {
        None => Ok(String::from_str(alloc, "no file\n")?),
        Some(place) => {
            let folder = encode_bytes(alloc, place.folder.as_bytes())?;
            let name = encode_bytes(alloc, place.name.as_bytes())?;
            let again = write_uri(alloc, place.folder.as_str(), place.name.as_str())?;
            Ok(format!(in alloc; "{folder} {name} {again}\n")?)
        }
    }
}

fn message_answer(alloc: Global, bytes: &[u8]) -> Result<String, Memory> {
    match read_json(alloc, bytes)? {
        None => Ok(String::from_str(alloc, "no JSON\n")?),
        Some(value) => {
            let message = message_of(&value);
            Ok(format!(in alloc; "{message:?}\n")?)
        }
    }
}

/// The project of a folder with open documents.
fn folder_answer(alloc: Global, files: &str, steps: &str) -> Result<String, Memory> {
    let files = files_of(alloc, files)?;
    if !have_distinct_names(&files) {
        return Ok(String::from_str(alloc, "a name is there twice\n")?);
    }
    let tree = SoundTree::new(alloc, files)?;
    let mut workspace = Workspace::new(alloc);
    for step in steps.split(',') {
        take_step(alloc, step, &mut workspace)?;
    }
    match workspace.folder(FOLDER) {
        Some(documents) => project_answer(alloc, documents, tree),
        None => project_answer(alloc, &Documents::new(alloc), tree),
    }
}

/// The files of pieces `NAME=TEXT`.
fn files_of(alloc: Global, pieces: &str) -> Result<Vec<SourceFile>, Memory> {
    let mut files = Vec::new(alloc);
    for piece in pieces.split(',') {
        if let Some((name, text)) = piece.split_once('=') {
            files.push(decode_source(alloc, name, text)?)?;
        }
    }
    Ok(files)
}

/// Does what a step says.
fn take_step(alloc: Global, step: &str, workspace: &mut Workspace) -> Result<(), Memory> {
    let path = String::from_str(alloc, FOLDER)?;
    if let Some(name) = step.strip_prefix('-') {
        workspace.close(FOLDER, decode_text(alloc, name)?.as_str());
    } else if let Some(name) = step.strip_prefix('?') {
        let uri = String::from_str(alloc, name)?;
        let name = decode_text(alloc, name)?;
        workspace.change(alloc, path, name, uri, Some(3), Some(OpenText::Unknown))?;
    } else if let Some((name, text)) = split_step(step, '*') {
        let uri = String::from_str(alloc, name)?;
        let text = OpenText::Known(decode_text(alloc, text)?);
        let name = decode_text(alloc, name)?;
        workspace.change(alloc, path, name, uri, Some(2), Some(text))?;
    } else if let Some((name, text)) = split_step(step, '+') {
        let uri = String::from_str(alloc, name)?;
        let text = OpenText::Known(decode_text(alloc, text)?);
        let version = Some(1);
        let name = decode_text(alloc, name)?;
        workspace.open(alloc, path, name, Document { uri, version, text })?;
    }
    Ok(())
}

/// The name and the text of a step with this mark.
fn split_step(step: &str, mark: char) -> Option<(&str, &str)> {
    step.strip_prefix(mark)?.split_once('=')
}

/// The project of a folder with these documents.
fn project_answer(alloc: Global, documents: &Documents, tree: SoundTree) -> Result<String, Memory> {
    if let Some(name) = documents.first_unknown() {
        return Ok(format!(in alloc; "the text of {name} is not known\n")?);
    }
    match load(alloc, &mut OpenTree::new(documents, tree)) {
        Err(error) => Ok(format!(in alloc; "{error}\n")?),
        Ok(files) => files_answer(alloc, documents, files.entries(), files.manifest()),
    }
}

/// The files of a project, each with the version of its document.
fn files_answer(
    alloc: Global,
    documents: &Documents,
    files: &[SourceFile],
    manifest: Option<&[u8]>,
) -> Result<String, Memory> {
    let mut answer = String::new(alloc);
    for file in files {
        let name = file.name.as_str();
        let text = encode_bytes(alloc, file.bytes.as_slice())?;
        match documents.get(name).and_then(|document| document.version) {
            Some(version) => answer.push_str(&format!(in alloc; "{name}={text} ({version}) ")?)?,
            None => answer.push_str(&format!(in alloc; "{name}={text} ")?)?,
        }
    }
    if let Some(bytes) = manifest {
        let text = encode_bytes(alloc, bytes)?;
        answer.push_str(&format!(in alloc; "with {text}")?)?;
    }
    answer.push_str("\n")?;
    Ok(answer)
}
