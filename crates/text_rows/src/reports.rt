//! The rows of the kind `report`. The row `words|a|b` prints the command that the words `a b` are, and `target|a` the
//! target of the word `a`. `batch|..`, `verify|..` and `recover|..` print a line of that command. Every other row is an
//! outcome, and prints its report as text and as JSON.

mod asked;
mod line;
mod outcome;
mod refusal;

use asked::{target_answer, words_answer};
use line::{batch_text, recover_text, verify_text};
use outcome::read_outcome;
use report::{json, text};
use rotor_base::Memory;
use std::alloc::Global;

/// What a row prints.
pub fn answer_row(alloc: Global, row: &[&str]) -> Result<String, Memory> {
    match row {
        ["words", words @ ..] => words_answer(alloc, words),
        ["target", word] => target_answer(alloc, word),
        pieces => match report_of(alloc, pieces)? {
            Some(bytes) => Ok(String::from_utf8_lossy(alloc, &bytes)?),
            None => Ok(String::from_str(alloc, "no outcome\n")?),
        },
    }
}

/// The report of some pieces, if they are one, with the names `a.ml` and `b.mli`.
fn report_of(alloc: Global, pieces: &[&str]) -> Result<Option<Vec<u8>>, Memory> {
    let names = vec![in alloc;
        String::from_str(alloc, "a.ml")?,
        String::from_str(alloc, "b.mli")?,
    ]?;
    match pieces {
        ["batch", pieces @ ..] => batch_text(alloc, &names, pieces),
        ["verify", pieces @ ..] => verify_text(alloc, &names, pieces),
        ["recover", pieces @ ..] => recover_text(alloc, pieces),
        pieces => outcome_text(alloc, &names, pieces),
    }
}

/// The report of an outcome, as text and as JSON.
fn outcome_text(
    alloc: Global,
    names: &[String],
    pieces: &[&str],
) -> Result<Option<Vec<u8>>, Memory> {
    let Some(outcome) = read_outcome(alloc, pieces)? else {
        return Ok(None);
    };
    let mut bytes = text(alloc, names, &outcome)?;
    bytes.extend_from_slice(&json(alloc, names, &outcome)?)?;
    Ok(Some(bytes))
}
