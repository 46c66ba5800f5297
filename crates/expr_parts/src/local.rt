//! The module of a `let module`: a path, and the arguments after it.

ghost use Rattle.std.specs.Prelude.{◌≤◌, length, Some};
ghost use Rattle.rotor_base.specs.Limits.{max_file_bytes};
ghost use Rattle.ml_trees.specs.View.{locals, view_local};
ghost use Rattle.token_reading.specs.Gives.{Gives};
ghost use Rattle.token_reading.specs.Tokens.{from};
ghost use Rattle.expr_reading.specs.ExprReading as r;
ghost use Rattle.expr_reading.specs.ExprReading.{read_local};
ghost use Rattle.expr_parts.specs.Rows.{local_of};

use crate::pieces::path;
use ml_trees::{Fixed, LocalArgument, LocalModule};
use std::alloc::Global;
use token_reading::{ReadError, TokenTable, expect, fit, has_fixed, number};

/// A module in parentheses, or `()`.
#[cycle(local)]
#[tactic(auto, using(crate::proofs::Rows::local_parts_of))]
#[inline(never)]
fn local_argument(
    alloc: Global,
    tokens: &TokenTable<'_>,
    depth: usize,
    levels: usize,
    at: usize,
) -> Result<(LocalArgument, usize), ReadError>
    requires few { length tokens.now ≤ max_file_bytes }
    ensures { Gives (λ x. (local_of x.0, from tokens.now x.1)) result (r.local_part (read_local depth) (from tokens.now at)) }
{
    if !has_fixed(tokens, Fixed::LeftParen, at) {
        return Err(ReadError::Syntax);
    }
    if has_fixed(tokens, Fixed::RightParen, at + 1) {
        return Ok((LocalArgument::Nothing { open: number(at) }, at + 2));
    }
    let (module, after) = local_module(alloc, tokens, depth, levels, at + 1)?;
    let after = expect(tokens, Fixed::RightParen, after)?;
    Ok((
        LocalArgument::Module {
            open: number(at),
            module,
        },
        after,
    ))
}

/// Arguments, as long as each can be read whole.
#[cycle(local)]
#[inline(never)]
fn local_arguments(
    alloc: Global,
    tokens: &TokenTable<'_>,
    depth: usize,
    levels: usize,
    at: usize,
) -> Result<(Vec<LocalArgument>, usize), ReadError>
    requires few { length tokens.now ≤ max_file_bytes }
    ensures { Gives (λ x. (locals x.0.items, from tokens.now x.1)) result (Some (r.local_parts (read_local depth) depth (from tokens.now at))) }
{
    let mut found = Vec::new(alloc);
    let mut at = at;
    for _turn in 0..depth {
        match local_argument(alloc, tokens, depth, levels, at) {
            Ok((next, after)) => {
                found.push(next)?;
                at = after;
            }
            Err(ReadError::Syntax) => return Ok((fit(found), at)),
            Err(ReadError::Memory) => return Err(ReadError::Memory),
        }
    }
    Ok((fit(found), at))
}

/// The module of a `let module`, nested at most so deep and over at most so many levels. The errors are `Syntax` and
/// `Memory`.
#[cycle(local)]
#[tactic(auto, unfolding(expr_reading::specs::ExprReading::read_local, expr_reading::specs::ExprReading::local_module))]
#[inline(never)]
pub fn local_module(
    alloc: Global,
    tokens: &TokenTable<'_>,
    depth: usize,
    levels: usize,
    at: usize,
) -> Result<(LocalModule, usize), ReadError>
    requires few { length tokens.now ≤ max_file_bytes }
    ensures { Gives (λ x. (view_local x.0, from tokens.now x.1)) result (read_local depth (from tokens.now at)) }
{
    if depth == 0 {
        return Err(ReadError::Syntax);
    }
    if levels == 0 {
        return Err(ReadError::Memory);
    }
    let (path, at) = path(alloc, tokens, depth - 1, at)?;
    let (arguments, at) = local_arguments(alloc, tokens, depth - 1, levels - 1, at)?;
    Ok((LocalModule { path, arguments }, at))
}
