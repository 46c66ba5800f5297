//! The longest sequence expression from a token.

ghost use Rattle.std.specs.Prelude.{◌≡◌, ◌≤◌, ◌+◌, length, Err, IfOk, IfErr};
ghost use Rattle.rotor_base.specs.Limits.{max_file_bytes};
ghost use Rattle.ml_trees.specs.View.{view};
ghost use Rattle.parse_base.specs.Plain.{IsPlain};
ghost use Rattle.token_reading.specs.Gives.{Gives};
ghost use Rattle.token_reading.specs.Tokens.{from};
ghost use Rattle.parse_base.specs.declared.error.ParseError.TheVariants as refused;
ghost use Rattle.expr_reading.specs.declared.wanted.Wanted.TheVariants as wanted;
ghost use Rattle.expr_reading.specs.ExprReading.{read_expr};
ghost use Rattle.expr_reading.specs.Longest.{IsLongestExpr, BeginsNoExpr};
ghost use Rattle.expr_levels.specs.Height.{height};

use crate::reading::read;
use expr_levels::fits;
use expr_reading::Wanted;
use ml_trees::Expr;
use parse_base::{MAX_NESTED, ParseError};
use rotor_base::Token;
use std::alloc::Global;
use token_reading::{ReadError, TokenTable};

/// How many levels an expression may have, and how often the readers may nest: 1,000 forms inside one another, with
/// what is in the last of them. At so many levels, expressions were read and dropped within 6 MiB of stack.
pub const MAX_DEEPER: usize = MAX_NESTED + 8;

/// The longest sequence expression that begins at a token (the manual's chapter on expressions), and the place after
/// it. Places are counted from 0, and there are at most 1,048,576 tokens. The Err is `Syntax` if no expression begins
/// there, or else `Memory`. `Memory` is also the answer for an expression of more than 1,008 levels.
pub fn parse_seq(
    alloc: Global,
    tokens: &[Token<'_>],
    start: usize,
) -> Result<(Expr, usize), ParseError>
    requires within { start ≤ length tokens.now }
    requires few { length tokens.now ≤ max_file_bytes }
    // It has these words, no longer one begins there, and no other of its length does.
    ensures found { IfOk result (λ x. IsLongestExpr (from tokens.now start) (view x.0) (from tokens.now x.1)) }
    ensures end { IfOk result (λ x. x.1 ≤ length tokens.now) }
    // No expression begins there.
    ensures none { result ≡ Err refused.Syntax → BeginsNoExpr (from tokens.now start) }
    // It has no more levels than may be.
    ensures low { IfOk result (λ x. height (view x.0) ≤ 1008) }
    // It is neither `Form` nor `Deep`.
    ensures plain { IfErr result IsPlain }
{
    match sequence_from(alloc, tokens, start) {
        Ok((tree, end)) => {
            if !fits(&tree, MAX_DEEPER) {
                return Err(ParseError::Memory);
            }
            Ok((Box::into_inner(tree), end.min(tokens.len())))
        }
        Err(ReadError::Syntax) => Err(ParseError::Syntax),
        Err(ReadError::Memory) => Err(ParseError::Memory),
    }
}

/// The longest sequence expression from a place.
fn sequence_from(
    alloc: Global,
    tokens: &[Token<'_>],
    start: usize,
) -> Result<(Box<Expr>, usize), ReadError>
    requires { length tokens.now ≤ max_file_bytes }
    ensures { Gives (λ x. (view x.0.value, from tokens.now x.1)) result (read_expr (length tokens.now + 1) wanted.Sequence (from tokens.now start)) }
{
    let table = TokenTable::new(alloc, tokens)?;
    read(
        alloc,
        &table,
        tokens.len() + 1,
        MAX_DEEPER,
        Wanted::Sequence,
        start,
    )
}
