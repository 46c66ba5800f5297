//! The stretches of tokens and bytes.
ghost use Rattle.std.specs.Prelude.{◌≡◌, IfOk, drop, map, take};
ghost use Rattle.refusal_words.specs.Cut.{view_cut};
ghost use Rattle.refusal_words.specs.Stretches.{behind_byte as behind_byte_of, byte_spot as byte_spot_of, cut_spot as cut_spot_of, has_colon as has_colon_of, is_label as is_label_class, place_spot as place_spot_of, token_spot as token_spot_of, word_before as word_before_of, word_at as word_at_of, cut_word as cut_word_of, token_word as token_word_of, word_end as word_end_of, word_start as word_start_of};
ghost use Rattle.ml_lexer.specs.Lexed.{view_token};

use crate::cut::CutSource;
use messages::{Spot, spot_in};
use rotor_base::{Class, Memory, Place, Token};
use std::alloc::Global;

/// The stretch of a token's word: of a label its name. Behind the last token it is the end of the source, and the
/// stretch of no source is empty. The one error is want of memory.
pub fn place_spot(alloc: Global, cuts: &[CutSource<'_>], place: Place) -> Result<Spot, Memory>
    ensures { IfOk result (λ spot. spot ≡ place_spot_of (map view_cut cuts.now) place) }
{
    match cuts.get(place.file as usize) {
        Some(cut) => cut_spot(alloc, cut, place.token),
        None => spot_in(alloc, b"", b"", 0, 0),
    }
}

/// The stretch of a token of a source, by its number from 1.
fn cut_spot(alloc: Global, cut: &CutSource<'_>, number: u32) -> Result<Spot, Memory>
    ensures { IfOk result (λ spot. spot ≡ cut_spot_of (view_cut cut.now) number) }
{
    match cut.tokens.get(number.saturating_sub(1) as usize) {
        Some(token) => token_spot(alloc, cut, token),
        None => {
            let end = cut.bytes.len() as u32;
            spot_in(alloc, cut.name, cut.bytes, end, end)
        }
    }
}

/// The stretch of a token's word.
fn token_spot(alloc: Global, cut: &CutSource<'_>, token: &Token<'_>) -> Result<Spot, Memory>
    ensures { IfOk result (λ spot. spot ≡ token_spot_of (view_cut cut.now) (view_token token.now)) }
{
    let start = word_start(token);
    let end = word_end(token);
    spot_in(alloc, cut.name, cut.bytes, start, end)
}

/// Where the word of a token begins: of a label, behind its mark.
pub fn word_start(token: &Token<'_>) -> u32
    ensures { result ≡ word_start_of (view_token token.now) }
{
    if is_label(token.class) && token.start < token.end {
        token.start + 1
    } else {
        token.start
    }
}

/// Where the word of a token ends: of a label with a colon, before the colon.
pub fn word_end(token: &Token<'_>) -> u32
    ensures { result ≡ word_end_of (view_token token.now) }
{
    if is_label(token.class) && has_colon(token.bytes) {
        token.end.saturating_sub(1)
    } else {
        token.end
    }
}

/// The word at a place; behind the last token there is none. It takes no memory.
pub fn word_at<'a>(cuts: &[CutSource<'a>], place: Place) -> &'a [u8]
    ensures { result.now ≡ word_at_of (map view_cut cuts.now) place }
{
    match cuts.get(place.file as usize) {
        Some(cut) => cut_word(cut, place.token),
        None => b"",
    }
}

/// The word of a token of a source, by its number from 1.
fn cut_word<'a>(cut: &CutSource<'a>, number: u32) -> &'a [u8]
    ensures { result.now ≡ cut_word_of (view_cut cut.now) number }
{
    match cut.tokens.get(number.saturating_sub(1) as usize) {
        Some(token) => token_word(token),
        None => b"",
    }
}

/// The word of a token.
fn token_word<'a>(token: &Token<'a>) -> &'a [u8]
    ensures { result.now ≡ token_word_of (view_token token.now) }
{
    let start = word_start(token);
    let word = rest(token.bytes, start.saturating_sub(token.start) as usize);
    front(word, word_end(token).saturating_sub(start) as usize)
}

/// The first bytes, at most so many.
fn front(bytes: &[u8], len: usize) -> &[u8]
    ensures { result.now ≡ take len bytes.now }
{
    if len < bytes.len() {
        &bytes[..len]
    } else {
        bytes
    }
}

/// The bytes behind the first ones, which are at most so many.
pub(crate) fn rest(bytes: &[u8], len: usize) -> &[u8]
    ensures { result.now ≡ drop len bytes.now }
{
    if len < bytes.len() {
        &bytes[len..]
    } else {
        &[]
    }
}

/// Whether a class is that of labels.
pub(crate) fn is_label(class: Class) -> bool
    ensures { result ≡ is_label_class class }
{
    match class {
        Class::Label => true,
        _ => false,
    }
}

/// Whether a word ends with a colon.
fn has_colon(word: &[u8]) -> bool
    ensures { result ≡ has_colon_of word.now }
{
    match word.last() {
        Some(byte) => *byte == b':',
        None => false,
    }
}

/// The bytes of the token that precedes one by so many, or none.
pub(crate) fn word_before<'a>(cut: &CutSource<'a>, number: u32, back: u32) -> &'a [u8]
    ensures { result.now ≡ word_before_of (view_cut cut.now).lexemes number back }
{
    if back >= number {
        return b"";
    }
    match cut.tokens.get((number - 1 - back) as usize) {
        Some(token) => token.bytes,
        None => b"",
    }
}

/// The stretch of a byte of a source, by the source's number from 0 and the byte's offset. Behind the last byte it is
/// empty, as is the stretch of no source. The one error is want of memory.
pub fn byte_spot(
    alloc: Global,
    cuts: &[CutSource<'_>],
    file: u32,
    offset: u32,
) -> Result<Spot, Memory>
    ensures { IfOk result (λ spot. spot ≡ byte_spot_of (map view_cut cuts.now) file offset) }
{
    match cuts.get(file as usize) {
        Some(cut) => spot_in(alloc, cut.name, cut.bytes, offset, behind_byte(cut, offset)),
        None => spot_in(alloc, b"", b"", 0, 0),
    }
}

/// The offset behind a byte; behind the last byte, the same offset.
fn behind_byte(cut: &CutSource<'_>, offset: u32) -> u32
    ensures { result ≡ behind_byte_of (view_cut cut.now) offset }
{
    if (offset as usize) < cut.bytes.len() {
        offset + 1
    } else {
        offset
    }
}
