//! Names, constants, and expressions in brackets.

ghost use Rattle.ml_trees.specs.Tok.{Tok};
ghost use Rattle.std.specs.Prelude.{List, ◌≡◌, ◌≤◌, ◌<◌, ◌+◌, [], length, Some};
ghost use Rattle.rotor_base.specs.Limits.{max_file_bytes};
ghost use Rattle.ml_trees.specs.Tree as pure;
ghost use Rattle.ml_trees.specs.View.{view, view_path, view_name};
ghost use Rattle.token_reading.specs.Gives.{name_at, Gives};
ghost use Rattle.token_reading.specs.Tokens.{from};
ghost use Rattle.expr_reading.specs.declared.wanted.Wanted.TheVariants as wanted;
ghost use Rattle.expr_reading.specs.ExprReading as r;
ghost use Rattle.expr_reading.specs.ExprReading.{read_expr};
ghost use Rattle.expr_parts.specs.Reads.{Nests};
ghost use Rattle.ml_trees.specs.WellFormed.{is_bracketed};
ghost use Rattle.expr_parts.specs.Rows.{dot_enclosed, wrapped_by};

use crate::readers::Atoms;
use expr_parts::{is_literal, path_from};
use expr_reading::Wanted;
use ml_trees::{Bracket, Expr, Fixed, Path, ValueName};
use rotor_base::Class;
use std::alloc::Global;
use token_reading::{Kind, ReadError, TokenTable, boxed, expect, kind_at, number, take_name, word};

impl<
    F: Copy
        + Fn(
            Global,
            &TokenTable<'_>,
            usize,
            usize,
            Wanted,
            usize,
        ) -> Result<(Box<Expr>, usize), ReadError>,
> Atoms<F> {
    /// What may follow a module path and a `.` too.
    #[tactic(auto, unfolding(expr_reading::specs::ExprReading::enclosed))]
    #[inline(never)]
    pub(crate) fn read_enclosed(
        &self,
        tokens: &TokenTable<'_>,
        at: usize,
    ) -> Result<(Box<Expr>, usize), ReadError>
        requires nests { Nests self.now.grammar.depth (F.pre self.now.grammar.sub) (F.post self.now.grammar.sub) }
        requires few { length tokens.now ≤ max_file_bytes }
        ensures { Gives (λ x. (view x.0.value, from tokens.now x.1)) result (r.enclosed (read_expr self.now.grammar.depth) self.now.grammar.depth (from tokens.now at)) }
    {
        match kind_at(tokens, at) {
            Kind::Word(Class::Lower) => value(self.grammar.alloc, tokens, at),
            Kind::Fixed(Fixed::LeftParen) => self.read_parenthesized(tokens, at),
            Kind::Fixed(Fixed::LeftBracket) => self.read_bracketed(tokens, Bracket::List, at),
            Kind::Fixed(Fixed::LeftArray) => self.read_bracketed(tokens, Bracket::Array, at),
            Kind::Fixed(Fixed::LeftBrace) => self.record(tokens, at),
            _ => Err(ReadError::Syntax),
        }
    }

    /// The same behind a `.`.
    #[inline(never)]
    pub(crate) fn read_behind_dot(
        &self,
        tokens: &TokenTable<'_>,
        at: usize,
    ) -> Result<(Box<Expr>, usize), ReadError>
        requires nests { Nests self.now.grammar.depth (F.pre self.now.grammar.sub) (F.post self.now.grammar.sub) }
        requires few { length tokens.now ≤ max_file_bytes }
        ensures { Gives (λ x. (view x.0.value, from tokens.now x.1)) result (dot_enclosed self.now.grammar.depth (from tokens.now at)) }
    {
        let at = expect(tokens, Fixed::Dot, at)?;
        self.read_enclosed(tokens, at)
    }

    /// After the name of a module or constructor at a place.
    #[tactic(auto, unfolding(expr_reading::specs::ExprReading::upper_expr), using(ml_trees::proofs::Variants::expr_views))]
    #[inline(never)]
    pub(crate) fn read_upper(
        &self,
        tokens: &TokenTable<'_>,
        at: usize,
    ) -> Result<(Box<Expr>, usize), ReadError>
        requires nests { Nests self.now.grammar.depth (F.pre self.now.grammar.sub) (F.post self.now.grammar.sub) }
        requires few { length tokens.now ≤ max_file_bytes }
        requires within { at < length tokens.now }
        ensures { Gives (λ x. (view x.0.value, from tokens.now x.1)) result (r.upper_expr (read_expr self.now.grammar.depth) self.now.grammar.depth (name_at tokens.now at) (from tokens.now (at + 1))) }
    {
        let (path, at) = path_from(self.grammar.alloc, tokens, self.grammar.depth, at)?;
        match self.read_behind_dot(tokens, at) {
            Ok((inner, after)) => qualify(self.grammar.alloc, tokens, path, at, inner, after),
            Err(ReadError::Syntax) => Ok((boxed(self.grammar.alloc, Expr::Constr(path))?, at)),
            Err(ReadError::Memory) => Err(ReadError::Memory),
        }
    }

    /// An expression of level 16 without Prefix words.
    #[tactic(auto, unfolding(expr_reading::specs::ExprReading::atom))]
    #[inline(never)]
    pub(crate) fn atom(
        &self,
        tokens: &TokenTable<'_>,
        at: usize,
    ) -> Result<(Box<Expr>, usize), ReadError>
        requires nests { Nests self.now.grammar.depth (F.pre self.now.grammar.sub) (F.post self.now.grammar.sub) }
        requires few { length tokens.now ≤ max_file_bytes }
        ensures { Gives (λ x. (view x.0.value, from tokens.now x.1)) result (r.atom (read_expr self.now.grammar.depth) self.now.grammar.depth (from tokens.now at)) }
    {
        match kind_at(tokens, at) {
            Kind::Fixed(Fixed::True) => boolean(self.grammar.alloc, tokens, true, at),
            Kind::Fixed(Fixed::False) => boolean(self.grammar.alloc, tokens, false, at),
            Kind::Fixed(Fixed::Begin) => self.begin(tokens, at),
            Kind::Fixed(Fixed::While) => self.while_loop(tokens, at),
            Kind::Fixed(Fixed::For) => self.for_loop(tokens, at),
            Kind::Word(Class::Upper) => self.read_upper(tokens, at),
            Kind::Word(Class::Tag) => tag(self.grammar.alloc, tokens, at),
            Kind::Word(class) => {
                if is_literal(class) {
                    return literal(self.grammar.alloc, tokens, class, at);
                }
                self.read_enclosed(tokens, at)
            }
            _ => self.read_enclosed(tokens, at),
        }
    }

    /// After the Prefix word at a place.
    #[tactic(auto, using(ml_trees::proofs::Variants::expr_views))]
    #[inline(never)]
    fn read_operated(
        &self,
        tokens: &TokenTable<'_>,
        at: usize,
    ) -> Result<(Box<Expr>, usize), ReadError>
        requires nests { Nests self.now.grammar.depth (F.pre self.now.grammar.sub) (F.post self.now.grammar.sub) }
        requires few { length tokens.now ≤ max_file_bytes }
        requires within { at < length tokens.now }
        ensures { Gives (λ x. (view x.0.value, from tokens.now x.1)) result (wrapped_by (pure.Prefixed (name_at tokens.now at)) (read_expr self.now.grammar.depth wanted.Prefixed (from tokens.now (at + 1)))) }
    {
        let operator = word(self.grammar.alloc, tokens, Class::Prefix, at)?;
        let (operand, after) = self.grammar.sub(tokens, Wanted::Prefixed, at + 1)?;
        Ok((
            boxed(self.grammar.alloc, Expr::Prefixed { operator, operand })?,
            after,
        ))
    }

    /// An expression of level 16. The errors are `Syntax` and `Memory`.
    #[tactic(auto, unfolding(expr_reading::specs::ExprReading::prefixed))]
    #[inline(never)]
    pub fn read_prefixed(
        &self,
        tokens: &TokenTable<'_>,
        at: usize,
    ) -> Result<(Box<Expr>, usize), ReadError>
        requires nests { Nests self.now.grammar.depth (F.pre self.now.grammar.sub) (F.post self.now.grammar.sub) }
        requires few { length tokens.now ≤ max_file_bytes }
        ensures { Gives (λ x. (view x.0.value, from tokens.now x.1)) result (r.prefixed (read_expr self.now.grammar.depth) self.now.grammar.depth (from tokens.now at)) }
    {
        match kind_at(tokens, at) {
            Kind::Word(Class::Prefix) => self.read_operated(tokens, at),
            _ => self.atom(tokens, at),
        }
    }
}

/// The `true` or `false` at a place.
#[tactic(auto, using(ml_trees::proofs::Variants::expr_views))]
#[inline(never)]
fn boolean(
    alloc: Global,
    tokens: &TokenTable<'_>,
    value: bool,
    at: usize,
) -> Result<(Box<Expr>, usize), ReadError>
    requires within { at < length tokens.now }
    requires few { length tokens.now ≤ max_file_bytes }
    ensures { Gives {A = pure.Expr × List Tok} (λ x. (view x.0.value, from tokens.now x.1)) result (Some (pure.BoolExpr (at + 1) value, from tokens.now (at + 1))) }
{
    let after = at + 1;
    let at = number(at);
    Ok((boxed(alloc, Expr::Bool { at, value })?, after))
}

/// The number, character or text at a place.
#[tactic(auto, using(ml_trees::proofs::Variants::expr_views))]
#[inline(never)]
fn literal(
    alloc: Global,
    tokens: &TokenTable<'_>,
    class: Class,
    at: usize,
) -> Result<(Box<Expr>, usize), ReadError>
    requires within { at < length tokens.now }
    requires few { length tokens.now ≤ max_file_bytes }
    ensures { Gives {A = pure.Expr × List Tok} (λ x. (view x.0.value, from tokens.now x.1)) result (Some (pure.Literal class (name_at tokens.now at), from tokens.now (at + 1))) }
{
    let literal = Expr::Literal(word(alloc, tokens, class, at)?);
    Ok((boxed(alloc, literal)?, at + 1))
}

/// The tag at a place.
#[tactic(auto, using(ml_trees::proofs::Variants::expr_views))]
#[inline(never)]
fn tag(alloc: Global, tokens: &TokenTable<'_>, at: usize) -> Result<(Box<Expr>, usize), ReadError>
    requires within { at < length tokens.now }
    requires few { length tokens.now ≤ max_file_bytes }
    ensures { Gives {A = pure.Expr × List Tok} (λ x. (view x.0.value, from tokens.now x.1)) result (Some (pure.Tag (name_at tokens.now at), from tokens.now (at + 1))) }
{
    let tag = Expr::Tag(word(alloc, tokens, Class::Tag, at)?);
    Ok((boxed(alloc, tag)?, at + 1))
}

/// The name of a value.
#[tactic(auto, using(ml_trees::proofs::Variants::expr_views))]
#[inline(never)]
fn value(alloc: Global, tokens: &TokenTable<'_>, at: usize) -> Result<(Box<Expr>, usize), ReadError>
    requires within { at < length tokens.now }
    requires few { length tokens.now ≤ max_file_bytes }
    ensures { Gives {A = pure.Expr × List Tok} (λ x. (view x.0.value, from tokens.now x.1)) result (Some (pure.Value [] (pure.PlainName (name_at tokens.now at)), from tokens.now (at + 1))) }
{
    let path = Vec::new(alloc);
    let name = ValueName::Lower(word(alloc, tokens, Class::Lower, at)?);
    Ok((boxed(alloc, Expr::Value { path, name })?, at + 1))
}

/// A module path, a `.` and the expression behind it, if that may follow them; else the path, as a constructor.
#[tactic(auto, using(crate::proofs::Lone::qualifications, ml_trees::proofs::Variants::expr_views))]
#[inline(never)]
fn qualify(
    alloc: Global,
    tokens: &TokenTable<'_>,
    path: Path,
    at: usize,
    inner: Box<Expr>,
    after: usize,
) -> Result<(Box<Expr>, usize), ReadError>
    requires few { length tokens.now ≤ max_file_bytes }
    ensures { Gives (λ x. (view x.0.value, from tokens.now x.1)) result (Some (r.opened_or (view_path path) (from tokens.now at) (r.qualified (view_path path) (view inner.value) (from tokens.now after)))) }
{
    let mut inner = inner;
    match &mut *inner {
        Expr::Value { path: names, name } => {
            if names.len() == 0 {
                let name = take_name(name);
                return Ok((value_of(alloc, path, name)?, after));
            }
            Ok((boxed(alloc, Expr::Constr(path))?, at))
        }
        _ => {
            if !is_bracketed(&inner) {
                return Ok((boxed(alloc, Expr::Constr(path))?, at));
            }
            let body = inner;
            Ok((boxed(alloc, Expr::Opened { path, body })?, after))
        }
    }
}

/// A value of a module.
#[tactic(auto, using(ml_trees::proofs::Variants::expr_views))]
#[inline(never)]
fn value_of(alloc: Global, path: Path, name: ValueName) -> Result<Box<Expr>, ReadError>
    ensures { Gives (λ e. view e.value) result (Some (pure.Value (view_path path) (view_name name))) }
{
    let path = path.words;
    boxed(alloc, Expr::Value { path, name })
}

/// Whether the expression may follow a module path and a `.`.
#[tactic(auto, unfolding(ml_trees::specs::View::view))]
#[inline(never)]
fn is_bracketed(expr: &Expr) -> bool
    ensures { result ≡ is_bracketed (view expr.now) }
{
    match expr {
        Expr::Unit { .. } => true,
        Expr::Paren { .. } => true,
        Expr::Empty { .. } => true,
        Expr::List { .. } => true,
        Expr::Record { .. } => true,
        _ => false,
    }
}
