//! Rows about folders, one a line. The first piece of a row is its kind, and `|` separates the pieces. The file of a kind
//! says what its rows are: `cases`, `values` and `sessions`. The folder of a case or of a value is the name and the text
//! of each file, both percent-encoded.
#![tactic(auto)]

mod cases;
mod folder;
mod sessions;
mod values;

use rotor_base::Memory;
use row_pieces::cut_pieces;
use std::alloc::Global;

/// What a row prints. `Memory` is the only error.
pub fn answer_row(alloc: Global, row: &str) -> Result<String, Memory> {
    let pieces = cut_pieces(alloc, row)?;
    match pieces.as_slice() {
        ["case", row @ ..] => cases::answer_row(alloc, row),
        ["value", row @ ..] => values::answer_row(alloc, row),
        ["session", row @ ..] => sessions::answer_row(alloc, row),
        _ => Ok(String::from_str(alloc, "no row\n")?),
    }
}
