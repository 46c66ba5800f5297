//! Paths and the names of values.

ghost use Rattle.std.specs.Prelude.{◌≡◌, ◌≤◌, ◌<◌, ◌+◌, ◌∷◌, [], true, length, map, Some, not};
ghost use Rattle.std.specs.Str.{bytes_eq};
ghost use Rattle.rotor_base.specs.Limits.{max_file_bytes};
ghost use Rattle.ml_trees.specs.View.{view_word, view_words, view_name};
ghost use Rattle.ml_trees.specs.WellFormed.{is_minus, is_operator as is_operator_token};
ghost use Rattle.token_reading.specs.Pieces.{dot_upper, more_uppers, upper_dot, qualifiers, lower_word, operator_at, value_name};
ghost use Rattle.token_reading.specs.Gives.{text_at, Gives};
ghost use Rattle.token_reading.specs.Tokens.{from};
ghost use Rattle.token_reading.specs.Rows.{first_is, keyword_operator};

use crate::boxes::fit;
use crate::error::ReadError;
use crate::table::{TokenTable, kind_at};
use crate::tokens::{Kind, has_fixed, number, text, token_word, word};
use ml_trees::{Fixed, ValueName, Word};
use rotor_base::Class;
use std::alloc::Global;

/// A `.` and the name of a module.
fn dot_upper(alloc: Global, tokens: &TokenTable<'_>, at: usize) -> Result<(Word, usize), ReadError>
    requires { length tokens.now ≤ max_file_bytes }
    ensures { Gives (λ x. (view_word x.0, from tokens.now x.1)) result (dot_upper (from tokens.now at)) }
{
    if !has_fixed(tokens, Fixed::Dot, at) {
        return Err(ReadError::Syntax);
    }
    match kind_at(tokens, at + 1) {
        Kind::Word(Class::Upper) => Ok((word(alloc, tokens, Class::Upper, at + 1)?, at + 2)),
        _ => Err(ReadError::Syntax),
    }
}

/// Names of modules, each behind a `.`, at most so many. `Memory` is the only error.
pub fn more_uppers(
    alloc: Global,
    tokens: &TokenTable<'_>,
    depth: usize,
    at: usize,
) -> Result<(Vec<Word>, usize), ReadError>
    requires { length tokens.now ≤ max_file_bytes }
    ensures { Gives (λ x. (view_words x.0.items, from tokens.now x.1)) result (Some (more_uppers depth (from tokens.now at))) }
{
    let mut found = Vec::new(alloc);
    let mut at = at;
    for _turn in 0..depth {
        match dot_upper(alloc, tokens, at) {
            Ok((next, after)) => {
                found.push(next)?;
                at = after;
            }
            Err(ReadError::Syntax) => return Ok((fit(found), at)),
            Err(ReadError::Memory) => return Err(ReadError::Memory),
        }
    }
    Ok((fit(found), at))
}

/// The name of a module and a `.`.
fn upper_dot(alloc: Global, tokens: &TokenTable<'_>, at: usize) -> Result<(Word, usize), ReadError>
    requires { length tokens.now ≤ max_file_bytes }
    ensures { Gives (λ x. (view_word x.0, from tokens.now x.1)) result (upper_dot (from tokens.now at)) }
{
    match kind_at(tokens, at) {
        Kind::Word(Class::Upper) => {
            if has_fixed(tokens, Fixed::Dot, at + 1) {
                return Ok((word(alloc, tokens, Class::Upper, at)?, at + 2));
            }
            Err(ReadError::Syntax)
        }
        _ => Err(ReadError::Syntax),
    }
}

/// Names of modules, each before a `.`, at most so many. `Memory` is the only error.
pub fn qualifiers(
    alloc: Global,
    tokens: &TokenTable<'_>,
    depth: usize,
    at: usize,
) -> Result<(Vec<Word>, usize), ReadError>
    requires { length tokens.now ≤ max_file_bytes }
    ensures { Gives (λ x. (view_words x.0.items, from tokens.now x.1)) result (Some (qualifiers depth (from tokens.now at))) }
{
    let mut found = Vec::new(alloc);
    let mut at = at;
    for _turn in 0..depth {
        match upper_dot(alloc, tokens, at) {
            Ok((next, after)) => {
                found.push(next)?;
                at = after;
            }
            Err(ReadError::Syntax) => return Ok((fit(found), at)),
            Err(ReadError::Memory) => return Err(ReadError::Memory),
        }
    }
    Ok((fit(found), at))
}

/// A lower-case name. The errors are `Syntax` and `Memory`.
pub fn lower_word(
    alloc: Global,
    tokens: &TokenTable<'_>,
    at: usize,
) -> Result<(Word, usize), ReadError>
    requires { length tokens.now ≤ max_file_bytes }
    ensures { Gives (λ x. (view_word x.0, from tokens.now x.1)) result (lower_word (from tokens.now at)) }
{
    match kind_at(tokens, at) {
        Kind::Word(Class::Lower) => Ok((word(alloc, tokens, Class::Lower, at)?, at + 1)),
        _ => Err(ReadError::Syntax),
    }
}

/// Whether a keyword is an operator.
fn is_keyword_operator(bytes: &[u8]) -> bool
    ensures { result ≡ keyword_operator bytes.now }
{
    bytes == b"mod".as_slice()
        || bytes == b"land".as_slice()
        || bytes == b"lor".as_slice()
        || bytes == b"lxor".as_slice()
        || bytes == b"lsl".as_slice()
        || bytes == b"lsr".as_slice()
        || bytes == b"asr".as_slice()
}

/// Whether the token at a place is an operator that may be in parentheses.
#[tactic(auto, using(crate::proofs::Operators::operators))]
pub fn is_operator(tokens: &TokenTable<'_>, at: usize) -> bool
    ensures value { result ≡ first_is is_operator_token (from tokens.now at) }
    ensures within { result ≡ true → at < length tokens.now }
{
    match kind_at(tokens, at) {
        Kind::Fixed(Fixed::Equals) => true,
        Kind::Word(Class::Prefix) => true,
        Kind::Word(Class::Infix) => text(tokens, at) != b"&".as_slice(),
        Kind::Word(Class::Mark) => text(tokens, at) == b":=".as_slice(),
        Kind::Word(Class::Keyword) => is_keyword_operator(text(tokens, at)),
        _ => false,
    }
}

/// Whether a text is `-` or `-.`.
pub fn is_minus(bytes: &[u8]) -> bool
    ensures { result ≡ is_minus bytes.now }
{
    bytes == b"-".as_slice() || bytes == b"-.".as_slice()
}

/// An operator and a `)`, behind the `(` at a place. The errors are `Syntax` and `Memory`.
#[inline(never)]
pub fn operator(
    alloc: Global,
    tokens: &TokenTable<'_>,
    at: usize,
) -> Result<(ValueName, usize), ReadError>
    requires within { at < length tokens.now }
    requires few { length tokens.now ≤ max_file_bytes }
    ensures { Gives (λ x. (view_name x.0, from tokens.now x.1)) result (operator_at (at + 1) (from tokens.now (at + 1))) }
{
    if !is_operator(tokens, at + 1) {
        return Err(ReadError::Syntax);
    }
    if !has_fixed(tokens, Fixed::RightParen, at + 2) {
        return Err(ReadError::Syntax);
    }
    let word = token_word(alloc, tokens, at + 1)?;
    Ok((
        ValueName::Operator {
            open: number(at),
            word,
        },
        at + 3,
    ))
}

/// The name of a value: a lower-case name, or an operator in parentheses. The errors are `Syntax` and `Memory`.
#[inline(never)]
pub fn value_name(
    alloc: Global,
    tokens: &TokenTable<'_>,
    at: usize,
) -> Result<(ValueName, usize), ReadError>
    requires { length tokens.now ≤ max_file_bytes }
    ensures { Gives (λ x. (view_name x.0, from tokens.now x.1)) result (value_name (from tokens.now at)) }
{
    match kind_at(tokens, at) {
        Kind::Word(Class::Lower) => Ok((
            ValueName::Lower(word(alloc, tokens, Class::Lower, at)?),
            at + 1,
        )),
        Kind::Fixed(Fixed::LeftParen) => operator(alloc, tokens, at),
        _ => Err(ReadError::Syntax),
    }
}
