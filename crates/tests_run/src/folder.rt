//! The folders and the words that the rows run with.
ghost use Rattle.std.specs.Prelude.{◌≡◌, [], ◌∷◌, IfOk};
ghost use Rattle.tree_io.specs.Store.{HasDistinctNames};

use rotor_base::{Memory, Row, SourceFile, Text};
use std::alloc::Global;

/// The file of this name with this text.
pub fn source(alloc: Global, name: &str, text: &str) -> Result<SourceFile, Memory>
    ensures name { IfOk result (λ file. file.name ≡ name.now) }
    ensures bytes { IfOk result (λ file. file.bytes ≡ text.now) }
{
    Ok(SourceFile {
        name: Text::from_string(String::from_str(alloc, name)?),
        bytes: Row::from_vec(text.as_bytes().to_vec(alloc)?),
    })
}

/// A folder of one file.
pub fn one_file(alloc: Global, name: &str, text: &str) -> Result<Vec<SourceFile>, Memory>
    ensures distinct { IfOk result (λ files. HasDistinctNames files.items) }
{
    let mut files = Vec::new(alloc);
    files.push(source(alloc, name, text)?)?;
    Ok(files)
}

/// A folder of these files.
pub fn sources(alloc: Global, files: &[(&str, &str)]) -> Result<Vec<SourceFile>, Memory> {
    let mut found = Vec::new(alloc);
    for (name, text) in files {
        found.push(source(alloc, name, text)?)?;
    }
    Ok(found)
}

/// These words of a command line.
pub fn words(alloc: Global, list: &[&str]) -> Result<Vec<String>, Memory> {
    let mut found = Vec::new(alloc);
    for word in list {
        found.push(String::from_str(alloc, word)?)?;
    }
    Ok(found)
}
