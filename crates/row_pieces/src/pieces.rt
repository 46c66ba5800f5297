//! The pieces of a row.
ghost use Rattle.std.specs.Prelude.{◌≡◌, IfOk, string_bytes};
ghost use Rattle.std.specs.Str.Lossy.{utf8_lossy};
ghost use Rattle.percent_encoding.specs.Percent as percent;
ghost use Rattle.row_pieces.specs.Numbers.{IsNumber, value_of};

use percent_encoding::{NON_ALPHANUMERIC, percent_decode, percent_encode};
use rotor_base::{Memory, Row, SourceFile, Text};
use std::alloc::Global;

/// The pieces of a row. `Memory` is the only error.
pub fn cut_pieces(alloc: Global, row: &str) -> Result<Vec<&str>, Memory> {
    let mut pieces = Vec::new(alloc);
    for piece in row.split('|') {
        pieces.push(piece)?;
    }
    Ok(pieces)
}

/// The bytes of a percent-encoded text. `Memory` is the only error.
pub fn decode_bytes(alloc: Global, text: &str) -> Result<Vec<u8>, Memory>
    ensures { IfOk result (λ bytes. bytes.items ≡ percent.percent_decode text.now) }
{
    let mut bytes = Vec::new(alloc);
    percent_decode(text.as_bytes()).append_to(&mut bytes)?;
    Ok(bytes)
}

/// A percent-encoded text. Bytes that are no UTF-8 become U+FFFD. `Memory` is the only error.
pub fn decode_text(alloc: Global, text: &str) -> Result<String, Memory>
    ensures { IfOk result (λ decoded. string_bytes decoded ≡ utf8_lossy (percent.percent_decode text.now)) }
{
    let bytes = decode_bytes(alloc, text)?;
    Ok(String::from_utf8_lossy(alloc, &bytes)?)
}

/// The source of a percent-encoded name and a percent-encoded text. `Memory` is the only error.
pub fn decode_source(alloc: Global, name: &str, text: &str) -> Result<SourceFile, Memory>
    ensures name { IfOk result (λ source. source.name ≡ utf8_lossy (percent.percent_decode name.now)) }
    ensures bytes { IfOk result (λ source. source.bytes ≡ percent.percent_decode text.now) }
{
    Ok(SourceFile {
        name: Text::from_string(decode_text(alloc, name)?),
        bytes: Row::from_vec(decode_bytes(alloc, text)?),
    })
}

/// Bytes, percent-encoded: letters and digits stay. `Memory` is the only error.
pub fn encode_bytes(alloc: Global, bytes: &[u8]) -> Result<String, Memory>
    ensures { IfOk result (λ text. string_bytes text ≡ percent.percent_encode NON_ALPHANUMERIC bytes.now) }
{
    let mut text = String::new(alloc);
    percent_encode(bytes, NON_ALPHANUMERIC).append_to(&mut text)?;
    Ok(text)
}

/// The number that a word writes, or 0 if it writes none.
pub fn read_number(word: &str) -> u32
    ensures number { IsNumber word.now → result ≡ value_of word.now }
    ensures other { ¬ (IsNumber word.now) → result ≡ 0 }
{
    word.parse::<u32>().unwrap_or(0)
}
