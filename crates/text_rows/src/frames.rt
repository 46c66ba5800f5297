//! The rows of the kind `frame`. The row `read|BYTES` prints the messages that percent-encoded bytes begin with, and
//! why the reading ends. `header|SIZE` reads a message whose header has so many bytes. `body|COUNT|SIZE` reads a
//! message whose header says one number of bytes and whose body has another. `write|BYTES` writes a message twice and
//! reads both.

use crate::texts::MOST;
use lsp_frames::{read_message, write_message};
use rotor_base::Memory;
use row_pieces::{decode_bytes, read_number};
use std::alloc::Global;

/// The most messages of a row.
const MOST_MESSAGES: usize = 10;

/// What a row prints.
pub fn answer_row(alloc: Global, row: &[&str]) -> Result<String, Memory> {
    match row {
        ["read", bytes] => read_answer(alloc, &decode_bytes(alloc, bytes)?),
        ["header", size] => read_answer(alloc, &make_long_header(alloc, size_of(size))?),
        ["body", count, size] => read_answer(alloc, &make_body(alloc, count, size_of(size))?),
        ["write", bytes] => read_answer(alloc, &write_twice(alloc, &decode_bytes(alloc, bytes)?)?),
        _ => Ok(String::from_str(alloc, "no row\n")?),
    }
}

/// The number of bytes that a word writes.
fn size_of(word: &str) -> usize {
    (read_number(word) as usize).min(MOST)
}

/// A message whose header has so many bytes.
fn make_long_header(alloc: Global, size: usize) -> Result<Vec<u8>, Memory> {
    let mut bytes = Vec::new(alloc);
    bytes.extend_from_slice(b"Content-Length: 2\r\nX: ")?;
    bytes.resize(size.max(26) - 4, b'y')?;
    bytes.extend_from_slice(b"\r\n\r\n{}")?;
    Ok(bytes)
}

/// A header that says a number of bytes, and so many bytes.
fn make_body(alloc: Global, count: &str, size: usize) -> Result<Vec<u8>, Memory> {
    let mut bytes = Vec::new(alloc);
    bytes.extend_from_slice(b"Content-Length: ")?;
    bytes.extend_from_slice(count.as_bytes())?;
    bytes.extend_from_slice(b"\r\n\r\n")?;
    for _ in 0..size {
        bytes.push(b'x')?;
    }
    Ok(bytes)
}

/// A message, twice.
fn write_twice(alloc: Global, body: &[u8]) -> Result<Vec<u8>, Memory> {
    let mut bytes = Vec::new(alloc);
    write_message(&mut bytes, body).map_err(|_| Memory)?;
    write_message(&mut bytes, body).map_err(|_| Memory)?;
    Ok(bytes)
}

/// The messages that bytes begin with, why the reading ends, and how many bytes are left.
fn read_answer(alloc: Global, bytes: &[u8]) -> Result<String, Memory> {
    let mut answer = String::new(alloc);
    let mut reader = bytes;
    for _ in 0..MOST_MESSAGES {
        match read_message(alloc, &mut reader) {
            Ok(Some(body)) => {
                let text = String::from_utf8_lossy(alloc, &body)?;
                answer.push_str(&format!(in alloc; "[{text}] ")?)?;
            }
            Ok(None) => {
                answer.push_str("end\n")?;
                return Ok(answer);
            }
            Err(error) => {
                answer.push_str(&format!(in alloc; "{error}\n")?)?;
                return Ok(answer);
            }
        }
    }
    answer.push_str(&format!(in alloc; "{} bytes are left\n", reader.len())?)?;
    Ok(answer)
}
