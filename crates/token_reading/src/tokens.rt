//! The token at a place. Places are counted from 0, tokens from 1.

ghost use Rattle.std.specs.Prelude.{◌≡◌, ◌≤◌, ◌<◌, ◌+◌, ◌∷◌, true, false, length, IfOk};
ghost use Rattle.rotor_base.specs.Limits.{max_file_bytes};
ghost use Rattle.ml_trees.specs.Tok.{fixed_at, is_placed, same};
ghost use Rattle.ml_trees.specs.View.{view_word, view_tok};
ghost use Rattle.token_reading.specs.Steps.{expect as read_expect, expect_at as read_expect_at};
ghost use Rattle.token_reading.specs.Gives.{text_at, name_at, Gives, starts};
ghost use Rattle.token_reading.specs.Tokens.{from};

use crate::error::ReadError;
use crate::table::{TokenTable, kind_at};
use ml_trees::{Fixed, Word};
use rotor_base::{Class, Memory, Name};
use std::alloc::Global;

/// What is at a place.
#[derive(Clone, Copy, Debug, PartialEq, Eq)]
pub enum Kind {
    /// A keyword or a mark that the grammar fixes.
    Fixed(Fixed),
    /// A word with a text of its own, by its class.
    Word(Class),
    /// The end of the tokens.
    End,
}

/// The bytes of the token at a place.
pub fn text<'a>(tokens: &TokenTable<'a>, at: usize) -> &'a [u8]
    requires { at < length tokens.now }
    ensures { result.now ≡ text_at tokens.now at }
{
    tokens.as_slice()[at].bytes
}

/// The number of the token at a place.
pub fn number(at: usize) -> u32
    requires { at < max_file_bytes }
    ensures { result ≡ at + 1 }
{
    at as u32 + 1
}

/// The token at a place, as a word of a class. `Memory` is the only error.
pub fn word(alloc: Global, tokens: &TokenTable<'_>, class: Class, at: usize) -> Result<Word, Memory>
    requires within { at < length tokens.now }
    requires few { length tokens.now ≤ max_file_bytes }
    ensures name { IfOk result (λ w. view_word w ≡ name_at tokens.now at) }
    ensures class { IfOk result (λ w. w.class ≡ class) }
{
    Ok(Word {
        token: number(at),
        class,
        name: Name::new(alloc, text(tokens, at))?,
    })
}

/// The token at a place, as a word with its own class: an operator, or a word of a run. `Memory` is the only error.
pub fn token_word(alloc: Global, tokens: &TokenTable<'_>, at: usize) -> Result<Word, Memory>
    requires within { at < length tokens.now }
    requires few { length tokens.now ≤ max_file_bytes }
    ensures { IfOk result (λ w. from tokens.now at ≡ view_tok w ∷ from tokens.now (at + 1)) }
{
    let token = tokens.as_slice()[at];
    Ok(Word {
        token: number(at),
        class: token.class,
        name: Name::new(alloc, token.bytes)?,
    })
}

/// Whether two fixed words are one.
pub(crate) fn is_same(a: Fixed, b: Fixed) -> bool
    ensures { result ≡ same a b }
{
    a == b
}

/// Whether this fixed word is at a place.
pub fn has_fixed(tokens: &TokenTable<'_>, fixed: Fixed, at: usize) -> bool
    ensures value { result ≡ starts fixed (from tokens.now at) }
    ensures there { result ≡ true → from tokens.now at ≡ fixed_at (at + 1) fixed ∷ from tokens.now (at + 1) }
    ensures within { result ≡ true → at < length tokens.now }
{
    match kind_at(tokens, at) {
        Kind::Fixed(found) => is_same(found, fixed),
        _ => false,
    }
}

/// The place after this fixed word, whose token no tree keeps. The errors are `Syntax` and `Memory`.
pub fn expect(tokens: &TokenTable<'_>, fixed: Fixed, at: usize) -> Result<usize, ReadError>
    requires plain { is_placed fixed ≡ false }
    requires few { length tokens.now ≤ max_file_bytes }
    ensures { Gives (λ next. from tokens.now next) result (read_expect fixed (from tokens.now at)) }
{
    if has_fixed(tokens, fixed, at) {
        return Ok(at + 1);
    }
    Err(ReadError::Syntax)
}

/// The number of this fixed word, whose token trees keep, and the place after it. The errors are `Syntax` and `Memory`.
pub fn expect_at(
    tokens: &TokenTable<'_>,
    fixed: Fixed,
    at: usize,
) -> Result<(u32, usize), ReadError>
    requires placed { is_placed fixed ≡ true }
    requires few { length tokens.now ≤ max_file_bytes }
    ensures { Gives (λ x. (x.0, from tokens.now x.1)) result (read_expect_at fixed (from tokens.now at)) }
{
    if has_fixed(tokens, fixed, at) {
        return Ok((number(at), at + 1));
    }
    Err(ReadError::Syntax)
}
