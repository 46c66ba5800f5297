//! `with` and its constraints.

ghost use Rattle.std.specs.Prelude.{◌≡◌, ◌≤◌, ◌<◌, true, length, map, Some};
ghost use Rattle.rotor_base.specs.Limits.{max_file_bytes};
ghost use Rattle.ml_trees.specs.View.{view_tok, view_constraint, view_with};
ghost use Rattle.ml_trees.specs.WellFormed.{is_constraint_sign};
ghost use Rattle.token_reading.specs.Gives.{Gives};
ghost use Rattle.token_reading.specs.Tokens.{from};
ghost use Rattle.token_reading.specs.Rows.{first_is};
ghost use Rattle.module_reading.specs.ModReading as r;

use ml_trees::{Constraint, Fixed, WithClause, Word};
use rotor_base::Class;
use std::alloc::Global;
use token_reading::{
    Kind, ReadError, TokenTable, expect, fit, kind_at, text, token_word, type_run,
};

/// Whether `=` or `:=` is at a place.
fn is_sign(tokens: &TokenTable<'_>, at: usize) -> bool
    ensures value { result ≡ first_is is_constraint_sign (from tokens.now at) }
    ensures within { result ≡ true → at < length tokens.now }
{
    match kind_at(tokens, at) {
        Kind::Fixed(Fixed::Equals) => true,
        Kind::Word(Class::Mark) => text(tokens, at) == b":=".as_slice(),
        _ => false,
    }
}

/// `=` or `:=`.
#[tactic(auto, using(crate::proofs::Rows::signs))]
fn sign(alloc: Global, tokens: &TokenTable<'_>, at: usize) -> Result<(Word, usize), ReadError>
    requires { length tokens.now ≤ max_file_bytes }
    ensures { Gives (λ x. (view_tok x.0, from tokens.now x.1)) result (r.constraint_sign (from tokens.now at)) }
{
    if !is_sign(tokens, at) {
        return Err(ReadError::Syntax);
    }
    Ok((token_word(alloc, tokens, at)?, at + 1))
}

/// An optional `private` before a type, and the place after it.
fn read_private(tokens: &TokenTable<'_>, at: usize) -> (bool, usize)
    requires { length tokens.now ≤ max_file_bytes }
    ensures { (result.0, from tokens.now result.1) ≡ r.optional_private (from tokens.now at) }
{
    match kind_at(tokens, at) {
        Kind::Fixed(Fixed::Private) => (true, at + 1),
        _ => (false, at),
    }
}

/// A constraint.
#[tactic(auto, unfolding(module_reading::specs::ModReading::constraint))]
fn constraint(
    alloc: Global,
    tokens: &TokenTable<'_>,
    at: usize,
) -> Result<(Constraint, usize), ReadError>
    requires { length tokens.now ≤ max_file_bytes }
    ensures { Gives (λ x. (view_constraint x.0, from tokens.now x.1)) result (r.constraint (from tokens.now at)) }
{
    let at = expect(tokens, Fixed::Type, at)?;
    let (left, at) = type_run(alloc, tokens, at)?;
    let (sign, at) = sign(alloc, tokens, at)?;
    let (private, at) = read_private(tokens, at);
    let (right, at) = type_run(alloc, tokens, at)?;
    Ok((
        Constraint {
            left,
            sign,
            private,
            right,
        },
        at,
    ))
}

/// The next constraint, behind its `and`.
fn next_constraint(
    alloc: Global,
    tokens: &TokenTable<'_>,
    at: usize,
) -> Result<(Constraint, usize), ReadError>
    requires { length tokens.now ≤ max_file_bytes }
    ensures { Gives (λ x. (view_constraint x.0, from tokens.now x.1)) result (r.next_constraint (from tokens.now at)) }
{
    let at = expect(tokens, Fixed::And, at)?;
    constraint(alloc, tokens, at)
}

/// Further constraints, as long as each can be read whole.
fn more_constraints(
    alloc: Global,
    tokens: &TokenTable<'_>,
    depth: usize,
    at: usize,
) -> Result<(Vec<Constraint>, usize), ReadError>
    requires { length tokens.now ≤ max_file_bytes }
    ensures { Gives (λ x. (map view_constraint x.0.items, from tokens.now x.1)) result (Some (r.more_constraints depth (from tokens.now at))) }
{
    let mut found = Vec::new(alloc);
    let mut at = at;
    for _turn in 0..depth {
        match next_constraint(alloc, tokens, at) {
            Ok((next, after)) => {
                found.push(next)?;
                at = after;
            }
            Err(ReadError::Syntax) => return Ok((fit(found), at)),
            Err(ReadError::Memory) => return Err(ReadError::Memory),
        }
    }
    Ok((fit(found), at))
}

/// A `with` and constraints between `and`.
#[tactic(auto, unfolding(module_reading::specs::ModReading::with_clause))]
fn with_clause(
    alloc: Global,
    tokens: &TokenTable<'_>,
    depth: usize,
    at: usize,
) -> Result<(WithClause, usize), ReadError>
    requires { length tokens.now ≤ max_file_bytes }
    ensures { Gives (λ x. (view_with x.0, from tokens.now x.1)) result (r.with_clause depth (from tokens.now at)) }
{
    let at = expect(tokens, Fixed::With, at)?;
    let (first, at) = constraint(alloc, tokens, at)?;
    let (rest, at) = more_constraints(alloc, tokens, depth, at)?;
    Ok((WithClause { first, rest }, at))
}

/// Each `with`, as long as it can be read whole. `Memory` is the only error.
pub fn with_clauses(
    alloc: Global,
    tokens: &TokenTable<'_>,
    depth: usize,
    at: usize,
) -> Result<(Vec<WithClause>, usize), ReadError>
    requires { length tokens.now ≤ max_file_bytes }
    ensures { Gives (λ x. (map view_with x.0.items, from tokens.now x.1)) result (Some (r.with_clauses depth (from tokens.now at))) }
{
    let mut found = Vec::new(alloc);
    let mut at = at;
    for _turn in 0..depth {
        match with_clause(alloc, tokens, depth, at) {
            Ok((next, after)) => {
                found.push(next)?;
                at = after;
            }
            Err(ReadError::Syntax) => return Ok((fit(found), at)),
            Err(ReadError::Memory) => return Err(ReadError::Memory),
        }
    }
    Ok((fit(found), at))
}
