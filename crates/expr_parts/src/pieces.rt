//! Small parts of expressions.

ghost use Rattle.std.specs.Prelude.{◌≡◌, ◌≤◌, ◌<◌, ◌+◌, false, length, Some};
ghost use Rattle.rotor_base.specs.Limits.{max_file_bytes};
ghost use Rattle.ml_trees.specs.View.{view, view_word, view_path, view_run, view_bang, view_variable};
ghost use Rattle.token_reading.specs.Rows.{path_from};
ghost use Rattle.token_reading.specs.Gives.{name_at, Gives};
ghost use Rattle.token_reading.specs.Tokens.{from};
ghost use Rattle.expr_reading.specs.ExprReading as r;
ghost use Rattle.ml_trees.specs.WellFormed.{is_literal};
ghost use Rattle.ml_trees.specs.Events.{closing};
ghost use Rattle.ml_trees.specs.Tok.{is_placed};
ghost use Rattle.ml_trees.specs.Runs.{has_colon, is_optional};
ghost use Rattle.expr_parts.specs.Rows.{upper_word};

use ml_trees::{Bracket, Expr, Fixed, Path, Run, Variable, Word};
use rotor_base::Class;
use std::alloc::Global;
use token_reading::{
    Kind, ReadError, TokenTable, boxed, expect, kind_at, more_uppers, number, text, type_run, word,
};

/// A last `;`, if it may follow, and the place after it.
#[inline(never)]
pub fn semicolon_if(tokens: &TokenTable<'_>, may: bool, at: usize) -> (bool, usize)
    requires few { length tokens.now ≤ max_file_bytes }
    ensures { (result.0, from tokens.now result.1) ≡ r.semicolon_if may (from tokens.now at) }
{
    if !may {
        return (false, at);
    }
    match kind_at(tokens, at) {
        Kind::Fixed(Fixed::Semicolon) => (true, at + 1),
        _ => (false, at),
    }
}

/// An optional `|` before the first case, and the place after it.
#[inline(never)]
pub fn first_bar(tokens: &TokenTable<'_>, at: usize) -> (bool, usize)
    requires few { length tokens.now ≤ max_file_bytes }
    ensures { (result.0, from tokens.now result.1) ≡ r.first_bar (from tokens.now at) }
{
    match kind_at(tokens, at) {
        Kind::Fixed(Fixed::Bar) => (true, at + 1),
        _ => (false, at),
    }
}

/// An optional `!` behind `open`. `Memory` is the only error.
#[inline(never)]
pub fn bang(
    alloc: Global,
    tokens: &TokenTable<'_>,
    at: usize,
) -> Result<(Option<Word>, usize), ReadError>
    requires few { length tokens.now ≤ max_file_bytes }
    ensures { Gives (λ x. (view_bang x.0, from tokens.now x.1)) result (Some (r.optional_bang (from tokens.now at))) }
{
    match kind_at(tokens, at) {
        Kind::Word(Class::Prefix) => {
            if text(tokens, at) == b"!".as_slice() {
                return Ok((Some(word(alloc, tokens, Class::Prefix, at)?), at + 1));
            }
            Ok((None, at))
        }
        _ => Ok((None, at)),
    }
}

/// A name of class Upper. The errors are `Syntax` and `Memory`.
#[inline(never)]
pub fn upper_word(
    alloc: Global,
    tokens: &TokenTable<'_>,
    at: usize,
) -> Result<(Word, usize), ReadError>
    requires few { length tokens.now ≤ max_file_bytes }
    ensures { Gives (λ x. (view_word x.0, from tokens.now x.1)) result (upper_word (from tokens.now at)) }
{
    match kind_at(tokens, at) {
        Kind::Word(Class::Upper) => Ok((word(alloc, tokens, Class::Upper, at)?, at + 1)),
        _ => Err(ReadError::Syntax),
    }
}

/// The path of a module. The errors are `Syntax` and `Memory`.
#[inline(never)]
pub fn path(
    alloc: Global,
    tokens: &TokenTable<'_>,
    depth: usize,
    at: usize,
) -> Result<(Path, usize), ReadError>
    requires few { length tokens.now ≤ max_file_bytes }
    ensures { Gives (λ x. (view_path x.0, from tokens.now x.1)) result (r.upper_path depth (from tokens.now at)) }
{
    match kind_at(tokens, at) {
        Kind::Word(Class::Upper) => path_from(alloc, tokens, depth, at),
        _ => Err(ReadError::Syntax),
    }
}

/// The path that begins with the name at a place. `Memory` is the only error.
#[inline(never)]
pub fn path_from(
    alloc: Global,
    tokens: &TokenTable<'_>,
    depth: usize,
    at: usize,
) -> Result<(Path, usize), ReadError>
    requires few { length tokens.now ≤ max_file_bytes }
    requires within { at < length tokens.now }
    ensures { Gives (λ x. (view_path x.0, from tokens.now x.1)) result (Some (path_from (name_at tokens.now at) depth (from tokens.now (at + 1)))) }
{
    let first = word(alloc, tokens, Class::Upper, at)?;
    let (mut words, after) = more_uppers(alloc, tokens, depth, at + 1)?;
    words.insert(0, first)?;
    Ok((Path { words }, after))
}

/// The variable of a `for`. The errors are `Syntax` and `Memory`.
#[inline(never)]
pub fn variable(
    alloc: Global,
    tokens: &TokenTable<'_>,
    at: usize,
) -> Result<(Variable, usize), ReadError>
    requires few { length tokens.now ≤ max_file_bytes }
    ensures { Gives (λ x. (view_variable x.0, from tokens.now x.1)) result (r.for_variable (from tokens.now at)) }
{
    match kind_at(tokens, at) {
        Kind::Word(Class::Lower) => Ok((
            Variable::Lower(word(alloc, tokens, Class::Lower, at)?),
            at + 1,
        )),
        Kind::Fixed(Fixed::Underscore) => Ok((Variable::Any { at: number(at) }, at + 1)),
        _ => Err(ReadError::Syntax),
    }
}

/// Whether a `for` counts down. The errors are `Syntax` and `Memory`.
#[inline(never)]
pub fn direction(tokens: &TokenTable<'_>, at: usize) -> Result<(bool, usize), ReadError>
    requires few { length tokens.now ≤ max_file_bytes }
    ensures { Gives (λ x. (x.0, from tokens.now x.1)) result (r.for_direction (from tokens.now at)) }
{
    match kind_at(tokens, at) {
        Kind::Fixed(Fixed::To) => Ok((false, at + 1)),
        Kind::Fixed(Fixed::Downto) => Ok((true, at + 1)),
        _ => Err(ReadError::Syntax),
    }
}

/// After an expression in parentheses and its type: a `)`, or `:>`, a type and a `)`. `paren` is the place of the `(`.
/// The errors are `Syntax` and `Memory`.
#[tactic(auto, using(ml_trees::proofs::Variants::expr_views))]
#[inline(never)]
pub fn read_typed(
    alloc: Global,
    tokens: &TokenTable<'_>,
    paren: usize,
    inner: Box<Expr>,
    run: Run,
    at: usize,
) -> Result<(Box<Expr>, usize), ReadError>
    requires within { paren < length tokens.now }
    requires few { length tokens.now ≤ max_file_bytes }
    ensures { Gives (λ x. (view x.0.value, from tokens.now x.1)) result (r.typed_by (paren + 1) (view inner.value) (view_run run) (from tokens.now at)) }
{
    match kind_at(tokens, at) {
        Kind::Fixed(Fixed::RightParen) => Ok((
            boxed(
                alloc,
                Expr::Typed {
                    at: number(paren),
                    body: inner,
                    run,
                },
            )?,
            at + 1,
        )),
        Kind::Fixed(Fixed::ColonGreater) => {
            let (to, at) = type_run(alloc, tokens, at + 1)?;
            let at = expect(tokens, Fixed::RightParen, at)?;
            Ok((
                boxed(
                    alloc,
                    Expr::Coerced {
                        at: number(paren),
                        body: inner,
                        from: Some(run),
                        to,
                    },
                )?,
                at,
            ))
        }
        _ => Err(ReadError::Syntax),
    }
}

/// After an expression in parentheses: a `)`, or a type and a `)`. `paren` is the place of the `(`. The errors are
/// `Syntax` and `Memory`.
#[tactic(auto, using(ml_trees::proofs::Variants::expr_views))]
#[inline(never)]
pub fn read_closed(
    alloc: Global,
    tokens: &TokenTable<'_>,
    paren: usize,
    inner: Box<Expr>,
    at: usize,
) -> Result<(Box<Expr>, usize), ReadError>
    requires within { paren < length tokens.now }
    requires few { length tokens.now ≤ max_file_bytes }
    ensures { Gives (λ x. (view x.0.value, from tokens.now x.1)) result (r.closed_by (paren + 1) (view inner.value) (from tokens.now at)) }
{
    match kind_at(tokens, at) {
        Kind::Fixed(Fixed::RightParen) => Ok((
            boxed(
                alloc,
                Expr::Paren {
                    at: number(paren),
                    body: inner,
                },
            )?,
            at + 1,
        )),
        Kind::Fixed(Fixed::Colon) => {
            let (run, at) = type_run(alloc, tokens, at + 1)?;
            read_typed(alloc, tokens, paren, inner, run, at)
        }
        Kind::Fixed(Fixed::ColonGreater) => {
            let (to, at) = type_run(alloc, tokens, at + 1)?;
            let at = expect(tokens, Fixed::RightParen, at)?;
            Ok((
                boxed(
                    alloc,
                    Expr::Coerced {
                        at: number(paren),
                        body: inner,
                        from: None,
                        to,
                    },
                )?,
                at,
            ))
        }
        _ => Err(ReadError::Syntax),
    }
}

/// Whether words of a class are numbers, characters or texts.
#[inline(never)]
pub fn is_literal(class: Class) -> bool
    ensures { result ≡ is_literal class }
{
    matches!(
        class,
        Class::Int | Class::Float | Class::Char | Class::Text | Class::Quoted
    )
}

/// Whether a label ends with a colon.
#[inline(never)]
pub fn has_colon(label: &[u8]) -> bool
    ensures { result ≡ has_colon label.now }
{
    match label {
        [_, ..] => label[label.len() - 1] == b':',
        [] => false,
    }
}

/// Whether a label begins with `?`.
#[inline(never)]
pub fn is_optional(label: &[u8]) -> bool
    ensures { result ≡ is_optional label.now }
{
    match label {
        [first, ..] => *first == b'?',
        [] => false,
    }
}

/// The word that closes a bracket.
#[inline(never)]
pub fn find_closing(bracket: Bracket) -> Fixed
    ensures value { result ≡ closing bracket }
    ensures plain { is_placed result ≡ false }
{
    match bracket {
        Bracket::List => Fixed::RightBracket,
        Bracket::Array => Fixed::RightArray,
    }
}
