//! Comments and attributes.

ghost use Rattle.std.specs.Prelude.{◌≡◌, ◌+◌, ◌<◌, ◌≤◌, ◌^◌, length, drop, true, IfSome};
ghost use Rattle.ml_lexer.specs.Trivia.{whole as whole_spec, or_one_byte as or_one_byte_spec, plain_part as plain_spec, opens_comment as opens_spec, comment_part as comment_part_spec, comment_length, attribute_part as attribute_part_spec, attribute_length, level_end, size_of, PartWithin, ReadsWithin, Reads};

use crate::bytes::{byte_at, skip};
use crate::quotes::{char_len, opens_quoted, quoted_len, text_len};

/// What begins at a byte inside a comment or an attribute, with its length.
#[derive(Clone, Copy)]
pub enum Part {
    /// One more level.
    Opens(usize),
    /// The end of a level.
    Closes(usize),
    /// What is skipped whole.
    Whole(usize),
    /// What does not end.
    Unended,
}

/// What is skipped whole, if it ends.
fn skip_whole(len: Option<usize>) -> Part
    ensures { result ≡ whole_spec len }
{
    match len {
        Some(len) => Part::Whole(len),
        None => Part::Unended,
    }
}

/// What is skipped whole; if there is nothing, one byte.
fn or_one_byte(len: Option<usize>) -> Part
    ensures { result ≡ or_one_byte_spec len }
{
    match len {
        Some(len) => Part::Whole(len),
        None => Part::Whole(1),
    }
}

/// A Text, Quoted or Char whole, if one begins here; else one byte.
#[tactic(auto, unfolding(crate::specs::Trivia::plain_part))]
fn plain_part(bytes: &[u8]) -> Part
    requires few { length bytes.now ≤ 2 ^ 20 }
    requires some { 0 < length bytes.now }
    ensures value { result ≡ plain_spec bytes.now }
    ensures within { PartWithin result bytes.now }
{
    if byte_at(bytes, 0) == b'"' {
        skip_whole(text_len(bytes))
    } else if opens_quoted(bytes) {
        skip_whole(quoted_len(bytes))
    } else {
        or_one_byte(char_len(bytes))
    }
}

/// How many bytes are skipped at once here, inside a comment or an attribute: those of a Text, a Quoted or a Char that
/// ends, or one byte. The caller ensures that there is a byte, and at most 1,048,576. It takes no memory.
pub fn part_len(bytes: &[u8]) -> usize
    requires few { length bytes.now ≤ 2 ^ 20 }
    requires some { 0 < length bytes.now }
    ensures value { result ≡ size_of (plain_spec bytes.now) }
    ensures more { 0 < result }
    ensures within { result ≤ length bytes.now }
{
    match plain_part(bytes) {
        Part::Opens(len) => len,
        Part::Closes(len) => len,
        Part::Whole(len) => len,
        Part::Unended => 1,
    }
}

/// Whether a comment opens here.
pub fn opens_comment(bytes: &[u8]) -> bool
    ensures value { result ≡ opens_spec bytes.now }
    ensures within { result ≡ true → 2 ≤ length bytes.now }
{
    byte_at(bytes, 0) == b'(' && byte_at(bytes, 1) == b'*'
}

/// The length of what nests and begins here with two bytes, if it ends. `part_at` returns what begins at a byte
/// inside it.
#[tactic(auto, using(crate::proofs::Steps::levels))]
fn nested_len<F: Fn(&[u8]) -> Part>(bytes: &[u8], part_at: F) -> Option<usize>
    requires few { length bytes.now ≤ 2 ^ 20 }
    requires opened { 2 ≤ length bytes.now }
    requires callable { ReadsWithin (F.pre part_at) (F.post part_at) }
    ensures value { (part : _) → Reads part (F.post part_at) → result ≡ level_end part 1 0 2 (drop 2 bytes.now) }
    ensures within { IfSome result (λ n. (0 < n) × (n ≤ length bytes.now)) }
{
    let mut depth: usize = 1;
    let mut read = 2;
    let mut rest = skip(bytes, read);
    while !rest.is_empty() {
        let len = match part_at(rest) {
            Part::Opens(len) => {
                depth += 1;
                len
            }
            Part::Closes(len) if depth == 1 => return Some(read + len),
            Part::Closes(len) => {
                depth -= 1;
                len
            }
            Part::Whole(len) => len,
            Part::Unended => return None,
        };
        read += len;
        rest = skip(rest, len);
    }
    None
}

/// What begins at a byte inside a comment.
#[tactic(auto, unfolding(crate::specs::Trivia::comment_part))]
fn comment_part(bytes: &[u8]) -> Part
    requires few { length bytes.now ≤ 2 ^ 20 }
    requires some { 0 < length bytes.now }
    ensures value { result ≡ comment_part_spec bytes.now }
    ensures within { PartWithin result bytes.now }
{
    if opens_comment(bytes) {
        Part::Opens(2)
    } else if byte_at(bytes, 0) == b'*' && byte_at(bytes, 1) == b')' {
        Part::Closes(2)
    } else {
        plain_part(bytes)
    }
}

/// The length of the comment that begins here, if it ends.
#[tactic(auto, unfolding(crate::specs::Trivia::comment_length))]
pub fn comment_len(bytes: &[u8]) -> Option<usize>
    requires few { length bytes.now ≤ 2 ^ 20 }
    requires opened { 2 ≤ length bytes.now }
    ensures value { result ≡ comment_length bytes.now }
    ensures within { IfSome result (λ n. (0 < n) × (n ≤ length bytes.now)) }
{
    nested_len(bytes, comment_part)
}

/// What begins at a byte inside an attribute.
#[tactic(auto, unfolding(crate::specs::Trivia::attribute_part))]
fn attribute_part(bytes: &[u8]) -> Part
    requires few { length bytes.now ≤ 2 ^ 20 }
    requires some { 0 < length bytes.now }
    ensures value { result ≡ attribute_part_spec bytes.now }
    ensures within { PartWithin result bytes.now }
{
    if opens_comment(bytes) {
        skip_whole(comment_len(bytes))
    } else if byte_at(bytes, 0) == b'[' {
        Part::Opens(1)
    } else if byte_at(bytes, 0) == b']' {
        Part::Closes(1)
    } else {
        plain_part(bytes)
    }
}

/// The length of the attribute that begins here, if it ends.
#[tactic(auto, unfolding(crate::specs::Trivia::attribute_length))]
pub fn attribute_len(bytes: &[u8]) -> Option<usize>
    requires few { length bytes.now ≤ 2 ^ 20 }
    requires opened { 2 ≤ length bytes.now }
    ensures value { result ≡ attribute_length bytes.now }
    ensures within { IfSome result (λ n. (0 < n) × (n ≤ length bytes.now)) }
{
    nested_len(bytes, attribute_part)
}
