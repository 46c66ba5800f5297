//! The rows of the kind `value`. A row ends with a folder. The row `at|NAME|OFFSET|FOLDER` prints the token of a cursor
//! at a byte, what is there, and all places of its footprint. `rename|COUNTING|NAME|OFFSET|NEW|FOLDER` prints the edits
//! of renaming that value as the response of a language server, or why there are none.
//! `references|COUNTING|NAME|OFFSET|FOLDER` prints the places as such a response.

mod at;
mod places;
mod project;
mod renaming;

use rotor_base::{Memory, Refusal};
use row_pieces::read_number;
use std::alloc::Global;
use text_places::Counting;

/// What a row prints.
pub fn answer_row(alloc: Global, row: &[&str]) -> Result<String, Memory> {
    let mut text = value_answer(alloc, row)?;
    text.push_str("\n")?;
    Ok(text)
}

fn value_answer(alloc: Global, row: &[&str]) -> Result<String, Memory> {
    match row {
        ["at", name, offset, folder @ ..] => at::answer_row(
            alloc,
            name,
            read_number(offset),
            folder,
        ),
        ["references", counting, name, offset, folder @ ..] => {
            places::answer_row(
                alloc,
                counting_of(counting),
                name,
                read_number(offset),
                folder,
            )
        }
        ["rename", counting, name, offset, new, folder @ ..] => {
            let new = new.as_bytes();
            renaming::answer_row(
                alloc,
                counting_of(counting),
                name,
                read_number(offset),
                new,
                folder,
            )
        }
        _ => Ok(String::from_str(alloc, "no row")?),
    }
}

/// What a row about a folder that is refused prints.
fn describe_refusal(alloc: Global, why: Refusal) -> Result<String, Memory> {
    match why {
        Refusal::Memory => Err(Memory),
        _ => Ok(String::from_str(alloc, "the folder is refused")?),
    }
}

fn counting_of(word: &str) -> Counting {
    match word {
        "utf16" => Counting::Utf16,
        _ => Counting::Utf8,
    }
}
