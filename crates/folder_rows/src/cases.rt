//! The rows of the kind `case`. Each prints what `rotor-explain` answers. A row is `NAME|WORDS|FOLDER`: a name of its
//! own, the words, separated by blanks, and the folder. The words are percent-encoded. The answer begins with the name
//! and the exit code.

use crate::folder::folder_of;
use explain_main::explain_words;
use rotor_base::Memory;
use row_pieces::decode_text;
use std::alloc::Global;
use tree_io::MemSink;

/// The most bytes of an answer.
const ROOM: u32 = 100_000;

/// What a row prints.
pub fn answer_row(alloc: Global, row: &[&str]) -> Result<String, Memory> {
    match row {
        [name, words, folder @ ..] => case_answer(alloc, name, words, folder),
        _ => Ok(String::from_str(alloc, "no row\n")?),
    }
}

/// The exit code and the output of a case.
fn case_answer(alloc: Global, name: &str, words: &str, folder: &[&str]) -> Result<String, Memory> {
    let Some(mut tree) = folder_of(alloc, folder)? else {
        return Ok(String::from_str(alloc, "no folder\n")?);
    };
    let words = words_of(alloc, words)?;
    let mut out = MemSink::new(alloc, ROOM, Vec::new(alloc))?;
    let code = explain_words(alloc, &words, &mut tree, &mut out).code();
    let text = String::from_utf8_lossy(alloc, out.bytes())?;
    Ok(format!(in alloc; "{name} {code}\n{}", text.as_str())?)
}

/// The words of a row.
fn words_of(alloc: Global, words: &str) -> Result<Vec<String>, Memory> {
    let mut list = Vec::new(alloc);
    for word in words.split(' ') {
        list.push(decode_text(alloc, word)?)?;
    }
    Ok(list)
}
