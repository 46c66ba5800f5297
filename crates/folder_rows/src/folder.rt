//! The folders of a row. The names and the texts of their files are percent-encoded.

use folders::{MemFolder, MemFolders};
use rotor_base::{Memory, Text};
use row_pieces::{decode_source, decode_text};
use std::alloc::Global;
use tree_io::{SoundTree, have_distinct_names};

/// The folder of some files, each by its name and its text. If two have one name, `None`.
pub fn folder_of(alloc: Global, pieces: &[&str]) -> Result<Option<SoundTree>, Memory> {
    let mut files = Vec::new(alloc);
    for pair in pieces.chunks_exact(2) {
        if let [name, text] = pair {
            files.push(decode_source(alloc, name, text)?)?;
        }
    }
    if have_distinct_names(&files) {
        Ok(Some(SoundTree::new(alloc, files)?))
    } else {
        Ok(None)
    }
}

/// The folders of pieces `PATH,NAME=TEXT,..`. If two files of a folder have one name, `None`.
pub fn folders_of(alloc: Global, pieces: &[&str]) -> Result<Option<MemFolders>, Memory> {
    let mut folders = Vec::new(alloc);
    for piece in pieces {
        match folder_at(alloc, piece)? {
            Some(folder) => folders.push(folder)?,
            None => return Ok(None),
        }
    }
    Ok(Some(MemFolders::new(folders)))
}

/// The folder of a piece `PATH,NAME=TEXT,..`.
fn folder_at(alloc: Global, piece: &str) -> Result<Option<MemFolder>, Memory> {
    let (path, pieces) = piece.split_once(',').unwrap_or((piece, ""));
    let mut files = Vec::new(alloc);
    for file in pieces.split(',') {
        if let Some((name, text)) = file.split_once('=') {
            files.push(decode_source(alloc, name, text)?)?;
        }
    }
    if !have_distinct_names(&files) {
        return Ok(None);
    }
    let path = Text::from_string(decode_text(alloc, path)?);
    Ok(Some(MemFolder { path, files }))
}
