//! The rows of the kind `text`. Their texts are percent-encoded. The row `positions|COUNTING|TEXT` prints the line and
//! the column of each byte of a text and of its end, `offset|COUNTING|LINE|COLUMN|TEXT` the byte that a line and a
//! column name, and `diff|OLD|NEW` the diff of two texts. `message|SENTENCE|TEXT|START|END|HELP` prints a message about
//! a stretch of a text, with a note at its first byte, and `bare|SENTENCE|HELP` one about no place, each as lines and
//! as JSON. `word|WORD` prints a word as a message shows it.

use crate::sentences::message_answer;
use messages::{Kind, Message, Note, Severity, Spot, shown_word, spot_in};
use rotor_base::{Memory, Row};
use row_pieces::{decode_bytes, read_number};
use source_diff::diff;
use std::alloc::Global;
use text_places::{Counting, Position, offset_of, positions_of};

/// The most bytes of a text in a row.
pub const MOST: usize = 10_000;

/// What a row prints.
pub fn answer_row(alloc: Global, row: &[&str]) -> Result<String, Memory> {
    match row {
        ["positions", counting, text] => {
            positions_answer(alloc, counting_of(counting), &decode_bytes(alloc, text)?)
        }
        ["offset", counting, line, column, text] => {
            let position = Position {
                line: read_number(line),
                column: read_number(column),
            };
            offset_answer(
                alloc,
                counting_of(counting),
                &decode_bytes(alloc, text)?,
                position,
            )
        }
        ["diff", old, new] => diff_answer(
            alloc,
            &decode_bytes(alloc, old)?,
            &decode_bytes(alloc, new)?,
        ),
        ["message", sentence, text, start, end, help] => {
            let stretch = (read_number(start), read_number(end));
            placed_answer(alloc, sentence, &decode_bytes(alloc, text)?, stretch, help)
        }
        ["bare", sentence, help] => noted_answer(alloc, sentence, None, Row::new(alloc), help),
        ["word", word] => {
            let word = shown_word(alloc, &decode_bytes(alloc, word)?)?;
            let mut answer = String::from_utf8_lossy(alloc, word.as_slice())?;
            answer.push_str("\n")?;
            Ok(answer)
        }
        _ => Ok(String::from_str(alloc, "no row\n")?),
    }
}

fn counting_of(word: &str) -> Counting {
    match word {
        "utf16" => Counting::Utf16,
        "utf8" => Counting::Utf8,
        _ => Counting::People,
    }
}

fn positions_answer(alloc: Global, counting: Counting, bytes: &[u8]) -> Result<String, Memory> {
    let bytes = &bytes[..bytes.len().min(MOST)];
    let mut answer = String::new(alloc);
    let mut offsets = Vec::new(alloc);
    for offset in 0..bytes.len() as u32 + 1 {
        offsets.push(offset)?;
    }
    for position in positions_of(alloc, counting, bytes, &offsets)? {
        answer.push_str(&format!(in alloc; "{}:{} ", position.line, position.column)?)?;
    }
    answer.push_str("\n")?;
    Ok(answer)
}

fn offset_answer(
    alloc: Global,
    counting: Counting,
    bytes: &[u8],
    position: Position,
) -> Result<String, Memory> {
    let bytes = &bytes[..bytes.len().min(MOST)];
    match offset_of(counting, bytes, position) {
        Some(offset) => Ok(format!(in alloc; "{offset}\n")?),
        None => Ok(String::from_str(alloc, "none\n")?),
    }
}

fn diff_answer(alloc: Global, old: &[u8], new: &[u8]) -> Result<String, Memory> {
    let text = diff(alloc, b"a.ml", old, new)?;
    Ok(String::from_utf8_lossy(alloc, &text)?)
}

/// A stretch of a text, of which at most the first bytes are taken.
fn spot(alloc: Global, bytes: &[u8], start: u32, end: u32) -> Result<Spot, Memory> {
    spot_in(alloc, b"a.ml", &bytes[..bytes.len().min(MOST)], start, end)
}

/// A message about a stretch of a text, with a note at its first byte.
fn placed_answer(
    alloc: Global,
    sentence: &str,
    bytes: &[u8],
    (start, end): (u32, u32),
    help: &str,
) -> Result<String, Memory> {
    let at = spot(alloc, bytes, start, end)?;
    let mut notes = Row::new(alloc);
    notes.push(Note {
        at: spot(alloc, bytes, 0, 1)?,
        text: Row::from_vec(b"the first byte".to_vec(alloc)?),
    })?;
    noted_answer(alloc, sentence, Some(at), notes, help)
}

/// A message with notes. An empty help is none.
fn noted_answer(
    alloc: Global,
    sentence: &str,
    at: Option<Spot>,
    notes: Row<Note>,
    help: &str,
) -> Result<String, Memory> {
    let help = if help.is_empty() {
        None
    } else {
        Some(Row::from_vec(decode_bytes(alloc, help)?))
    };
    let message = Message {
        severity: Severity::Error,
        kind: Kind::Clash,
        text: Row::from_vec(decode_bytes(alloc, sentence)?),
        at,
        notes,
        help,
    };
    message_answer(alloc, message)
}
