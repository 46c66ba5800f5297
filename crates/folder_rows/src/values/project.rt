//! The project of a row.

use crate::folder::folder_of;
use project_load::load;
use rename_parts::number_of;
use rotor_base::{Files, LoadError, MAX_FILE_BYTES, Place, Token};
use std::alloc::Global;
use value_at::token_at;

/// The files of a folder. If two files have one name, the error is `Read`; the other errors are those of a load.
pub fn files_of(alloc: Global, pieces: &[&str]) -> Result<Files, LoadError> {
    match folder_of(alloc, pieces)? {
        Some(mut tree) => load(alloc, &mut tree),
        None => Err(LoadError::Read),
    }
}

/// The place that a cursor at a byte of a source means.
pub fn place_of(files: &Files, tokens: &[Vec<Token>], name: &str, offset: u32) -> Option<Place> {
    let file = number_of(files.entries(), name.as_bytes())?;
    let list = tokens.get(file as usize)?.as_slice();
    let token = token_at(&list[..list.len().min(MAX_FILE_BYTES as usize)], offset)?;
    Some(Place { file, token })
}

/// The name of the source of a number.
pub fn name_of(files: &Files, file: u32) -> &str {
    match files.entries().get(file as usize) {
        Some(source) => source.name.as_str(),
        None => "",
    }
}
