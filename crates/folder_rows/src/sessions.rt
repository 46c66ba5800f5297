//! The rows of the kind `session`. Each prints what `rotor-lsp` answers to a recorded session. A row is
//! `NAME|BYTES|FOLDER|..`: a name of its own, the bytes that an editor sent, and folders. A folder is
//! `PATH,NAME=TEXT,..`: its path and its files. The bytes, paths, names and texts are percent-encoded. The answer has
//! the name, then the exit code, and then the bytes of the output.

use crate::folder::folders_of;
use document_answers::DocumentAnswers;
use lsp_main::serve_words;
use rotor_base::Memory;
use row_pieces::decode_bytes;
use std::alloc::Global;

/// What a row prints.
pub fn answer_row(alloc: Global, row: &[&str]) -> Result<String, Memory> {
    match row {
        [name, bytes, folders @ ..] => session_answer(alloc, name, bytes, folders),
        _ => Ok(String::from_str(alloc, "no row\n")?),
    }
}

/// The exit code and the output of a session.
fn session_answer(
    alloc: Global,
    name: &str,
    bytes: &str,
    folders: &[&str],
) -> Result<String, Memory> {
    let Some(folders) = folders_of(alloc, folders)? else {
        return Ok(String::from_str(alloc, "no folders\n")?);
    };
    let mut answers = DocumentAnswers::new(folders);
    let bytes = decode_bytes(alloc, bytes)?;
    let mut input = bytes.as_slice();
    let mut output = Vec::new(alloc);
    let code = serve_words(alloc, &[], &mut answers, &mut input, &mut output).code();
    let text = String::from_utf8_lossy(alloc, &output)?;
    Ok(format!(in alloc; "{name} {code}\n{text}\n")?)
}
