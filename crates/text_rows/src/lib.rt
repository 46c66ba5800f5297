//! Rows about texts, one a line. The first piece of a row is its kind, and `|` separates the pieces. The file of a kind
//! says what its rows are: `texts`, `sentences`, `reports`, `frames` and `documents`.
#![tactic(auto)]

mod documents;
mod frames;
mod reports;
mod sentences;
mod texts;

use rotor_base::Memory;
use row_pieces::cut_pieces;
use std::alloc::Global;

/// What a row prints. `Memory` is the only error.
pub fn answer_row(alloc: Global, row: &str) -> Result<String, Memory> {
    let pieces = cut_pieces(alloc, row)?;
    match pieces.as_slice() {
        ["text", row @ ..] => texts::answer_row(alloc, row),
        ["sentence", row @ ..] => sentences::answer_row(alloc, row),
        ["report", row @ ..] => reports::answer_row(alloc, row),
        ["frame", row @ ..] => frames::answer_row(alloc, row),
        ["document", row @ ..] => documents::answer_row(alloc, row),
        _ => Ok(String::from_str(alloc, "no row\n")?),
    }
}
