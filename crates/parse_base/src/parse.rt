//! The longest pattern from a token.

ghost use Rattle.std.specs.Prelude.{◌≡◌, ◌≤◌, ◌+◌, length, Err, IfOk, IfErr};
ghost use Rattle.rotor_base.specs.Limits.{max_file_bytes};
ghost use Rattle.ml_trees.specs.View.{view_pat};
ghost use Rattle.token_reading.specs.Longest.{IsLongestPat, BeginsNoPat};
ghost use Rattle.parse_base.specs.Plain.{IsPlain};
ghost use Rattle.token_reading.specs.Gives.{Gives};
ghost use Rattle.token_reading.specs.PatReading.{read_pat};
ghost use Rattle.token_reading.specs.Tokens.{from};
ghost use Rattle.parse_base.specs.declared.error.ParseError.TheVariants as refused;

use crate::error::ParseError;
use ml_trees::Pat;
use pattern_reading::pattern;
use rotor_base::{MAX_LEVELS, Token};
use std::alloc::Global;
use token_reading::{ReadError, TokenTable};

/// How often the form of a tree may nest in another: each such form takes three of the levels that a tree may have.
pub const MAX_NESTED: usize = MAX_LEVELS / 3;

/// The longest pattern that begins at a token (the manual's chapter on patterns), and the place after it. Places are
/// counted from 0, and there are at most 1,048,576 tokens. The Err is `Syntax` if no pattern begins there, or else
/// `Memory`. `Memory` is also the answer for a pattern that nests past the bound on levels.
pub fn parse_pat(
    alloc: Global,
    tokens: &[Token<'_>],
    start: usize,
) -> Result<(Pat, usize), ParseError>
    requires within { start ≤ length tokens.now }
    requires few { length tokens.now ≤ max_file_bytes }
    // It has these words, no longer one begins there, and no other of its length does.
    ensures found { IfOk result (λ x. IsLongestPat (from tokens.now start) (view_pat x.0) (from tokens.now x.1)) }
    ensures end { IfOk result (λ x. x.1 ≤ length tokens.now) }
    // No pattern begins there.
    ensures none { result ≡ Err refused.Syntax → BeginsNoPat (from tokens.now start) }
    // It is neither `Form` nor `Deep`.
    ensures plain { IfErr result IsPlain }
{
    match pattern_from(alloc, tokens, start) {
        Ok((tree, end)) => Ok((tree, end.min(tokens.len()))),
        Err(ReadError::Syntax) => Err(ParseError::Syntax),
        Err(ReadError::Memory) => Err(ParseError::Memory),
    }
}

/// The longest pattern from a place.
fn pattern_from(
    alloc: Global,
    tokens: &[Token<'_>],
    start: usize,
) -> Result<(Pat, usize), ReadError>
    requires { length tokens.now ≤ max_file_bytes }
    ensures { Gives (λ x. (view_pat x.0, from tokens.now x.1)) result (read_pat (length tokens.now + 1) (from tokens.now start)) }
{
    let table = TokenTable::new(alloc, tokens)?;
    pattern(alloc, &table, tokens.len() + 1, MAX_NESTED, start)
}
