//! Expressions in brackets, and loops.

ghost use Rattle.std.specs.Prelude.{◌≤◌, ◌<◌, ◌+◌, [], true, length, Some};
ghost use Rattle.rotor_base.specs.Limits.{max_file_bytes};
ghost use Rattle.ml_trees.specs.Tree as pure;
ghost use Rattle.ml_trees.specs.View.{view, view_name, links};
ghost use Rattle.token_reading.specs.Gives.{Gives};
ghost use Rattle.token_reading.specs.Tokens.{from};
ghost use Rattle.expr_reading.specs.declared.wanted.Wanted.TheVariants as wanted;
ghost use Rattle.expr_reading.specs.ExprReading as r;
ghost use Rattle.expr_reading.specs.ExprReading.{read_expr};
ghost use Rattle.expr_parts.specs.Reads.{Nests};
ghost use Rattle.expr_parts.specs.Rows.{link_of, item_of, more_items, row_rest, paren_of};

use crate::readers::Atoms;
use expr_parts::{
    Edge, direction, find_closing, on_edge, read_closed, row_ends, semicolon_if, variable,
};
use expr_reading::Wanted;
use ml_trees::{Bracket, Expr, Fixed, ValueName};
use std::alloc::Global;
use token_reading::{
    ReadError, TokenTable, boxed, expect, expect_at, fit, has_fixed, number, operator,
};

impl<
    F: Copy
        + Fn(
            Global,
            &TokenTable<'_>,
            usize,
            usize,
            Wanted,
            usize,
        ) -> Result<(Box<Expr>, usize), ReadError>,
> Atoms<F> {
    /// The next item of a list, behind its `;`.
    #[inline(never)]
    pub(crate) fn next_item(
        &self,
        tokens: &TokenTable<'_>,
        at: usize,
    ) -> Result<(Expr, usize), ReadError>
        requires nests { Nests self.now.grammar.depth (F.pre self.now.grammar.sub) (F.post self.now.grammar.sub) }
        requires few { length tokens.now ≤ max_file_bytes }
        ensures { Gives (λ x. (link_of x.0, from tokens.now x.1)) result (r.semicolon_part (read_expr self.now.grammar.depth) self.now.grammar.depth (item_of self.now.grammar.depth true) (from tokens.now at)) }
    {
        let at = expect(tokens, Fixed::Semicolon, at)?;
        self.grammar.value(tokens, Wanted::Expression, at)
    }

    /// Further ones, as long as each can be read whole and a `;` may follow the last.
    #[inline(never)]
    pub(crate) fn more_items(
        &self,
        tokens: &TokenTable<'_>,
        at: usize,
    ) -> Result<(Vec<Expr>, usize), ReadError>
        requires nests { Nests self.now.grammar.depth (F.pre self.now.grammar.sub) (F.post self.now.grammar.sub) }
        requires few { length tokens.now ≤ max_file_bytes }
        ensures { Gives (λ x. (links x.0.items, from tokens.now x.1)) result (Some (more_items self.now.grammar.depth true (from tokens.now at))) }
    {
        let mut found = Vec::new(self.grammar.alloc);
        let mut at = at;
        for _turn in 0..self.grammar.depth {
            match self.next_item(tokens, at) {
                Ok((next, after)) => {
                    let goes_on = !on_edge(Edge::Form, &next);
                    found.push(next)?;
                    at = after;
                    if !goes_on {
                        return Ok((fit(found), at));
                    }
                }
                Err(ReadError::Syntax) => return Ok((fit(found), at)),
                Err(ReadError::Memory) => return Err(ReadError::Memory),
            }
        }
        Ok((fit(found), at))
    }

    /// What follows the first item: further ones, and whether there is a last `;`.
    #[inline(never)]
    pub(crate) fn rest_of_items(
        &self,
        tokens: &TokenTable<'_>,
        first: &Expr,
        at: usize,
    ) -> Result<((Vec<Expr>, bool), usize), ReadError>
        requires nests { Nests self.now.grammar.depth (F.pre self.now.grammar.sub) (F.post self.now.grammar.sub) }
        requires few { length tokens.now ≤ max_file_bytes }
        ensures { Gives (λ x. ((links x.0.0.items, x.0.1), from tokens.now x.1)) result (Some (row_rest self.now.grammar.depth true (view first.now) (from tokens.now at))) }
    {
        if on_edge(Edge::Form, first) {
            return Ok(((Vec::new(self.grammar.alloc), false), at));
        }
        let (rest, at) = self.more_items(tokens, at)?;
        let may = row_ends(first, &rest);
        let (last, at) = semicolon_if(tokens, may, at);
        Ok(((rest, last), at))
    }

    /// The items of the list whose bracket is at `start`.
    #[tactic(auto, using(ml_trees::proofs::Variants::expr_views))]
    #[inline(never)]
    pub(crate) fn list(
        &self,
        tokens: &TokenTable<'_>,
        start: usize,
        bracket: Bracket,
        at: usize,
    ) -> Result<(Box<Expr>, usize), ReadError>
        requires nests { Nests self.now.grammar.depth (F.pre self.now.grammar.sub) (F.post self.now.grammar.sub) }
        requires few { length tokens.now ≤ max_file_bytes }
        requires begun { start < length tokens.now }
        ensures { Gives (λ x. (view x.0.value, from tokens.now x.1)) result (r.list_expr (read_expr self.now.grammar.depth) self.now.grammar.depth (start + 1) bracket (from tokens.now at)) }
    {
        let (first, at) = self.grammar.sub(tokens, Wanted::Expression, at)?;
        let ((rest, last), at) = self.rest_of_items(tokens, &first, at)?;
        let at = expect(tokens, find_closing(bracket), at)?;
        Ok((
            boxed(
                self.grammar.alloc,
                Expr::List {
                    at: number(start),
                    bracket,
                    first,
                    rest,
                    last,
                },
            )?,
            at,
        ))
    }

    /// After the `[` or `[|` at a place.
    #[tactic(auto, unfolding(expr_reading::specs::ExprReading::bracket_expr), using(ml_trees::proofs::Variants::expr_views))]
    #[inline(never)]
    pub(crate) fn read_bracketed(
        &self,
        tokens: &TokenTable<'_>,
        bracket: Bracket,
        at: usize,
    ) -> Result<(Box<Expr>, usize), ReadError>
        requires nests { Nests self.now.grammar.depth (F.pre self.now.grammar.sub) (F.post self.now.grammar.sub) }
        requires few { length tokens.now ≤ max_file_bytes }
        requires within { at < length tokens.now }
        ensures { Gives (λ x. (view x.0.value, from tokens.now x.1)) result (r.bracket_expr (read_expr self.now.grammar.depth) self.now.grammar.depth (at + 1) bracket (from tokens.now (at + 1))) }
    {
        if has_fixed(tokens, find_closing(bracket), at + 1) {
            return Ok((
                boxed(
                    self.grammar.alloc,
                    Expr::Empty {
                        at: number(at),
                        bracket,
                    },
                )?,
                at + 2,
            ));
        }
        self.list(tokens, at, bracket, at + 1)
    }

    /// An expression, and what closes the `(` at a place.
    #[inline(never)]
    pub(crate) fn read_inner(
        &self,
        tokens: &TokenTable<'_>,
        at: usize,
    ) -> Result<(Box<Expr>, usize), ReadError>
        requires nests { Nests self.now.grammar.depth (F.pre self.now.grammar.sub) (F.post self.now.grammar.sub) }
        requires few { length tokens.now ≤ max_file_bytes }
        requires within { at < length tokens.now }
        ensures { Gives (λ x. (view x.0.value, from tokens.now x.1)) result (paren_of (at + 1) (read_expr self.now.grammar.depth wanted.Sequence (from tokens.now (at + 1)))) }
    {
        let (inner, after) = self.grammar.sub(tokens, Wanted::Sequence, at + 1)?;
        read_closed(self.grammar.alloc, tokens, at, inner, after)
    }

    /// After the `(` at a place.
    #[tactic(auto, unfolding(expr_reading::specs::ExprReading::paren_expr), using(ml_trees::proofs::Variants::expr_views))]
    #[inline(never)]
    pub(crate) fn read_parenthesized(
        &self,
        tokens: &TokenTable<'_>,
        at: usize,
    ) -> Result<(Box<Expr>, usize), ReadError>
        requires nests { Nests self.now.grammar.depth (F.pre self.now.grammar.sub) (F.post self.now.grammar.sub) }
        requires few { length tokens.now ≤ max_file_bytes }
        requires within { at < length tokens.now }
        ensures { Gives (λ x. (view x.0.value, from tokens.now x.1)) result (r.paren_expr (read_expr self.now.grammar.depth) self.now.grammar.depth (at + 1) (from tokens.now (at + 1))) }
    {
        if has_fixed(tokens, Fixed::RightParen, at + 1) {
            return Ok((
                boxed(self.grammar.alloc, Expr::Unit { at: number(at) })?,
                at + 2,
            ));
        }
        match operator(self.grammar.alloc, tokens, at) {
            Ok((name, after)) => Ok((operator_value(self.grammar.alloc, name)?, after)),
            Err(ReadError::Syntax) => self.read_inner(tokens, at),
            Err(ReadError::Memory) => Err(ReadError::Memory),
        }
    }

    /// After the `begin` at a place.
    #[tactic(auto, unfolding(expr_reading::specs::ExprReading::begin_expr), using(ml_trees::proofs::Variants::expr_views))]
    #[inline(never)]
    pub(crate) fn begin(
        &self,
        tokens: &TokenTable<'_>,
        at: usize,
    ) -> Result<(Box<Expr>, usize), ReadError>
        requires nests { Nests self.now.grammar.depth (F.pre self.now.grammar.sub) (F.post self.now.grammar.sub) }
        requires few { length tokens.now ≤ max_file_bytes }
        requires within { at < length tokens.now }
        ensures { Gives (λ x. (view x.0.value, from tokens.now x.1)) result (r.begin_expr (read_expr self.now.grammar.depth) self.now.grammar.depth (at + 1) (from tokens.now (at + 1))) }
    {
        if has_fixed(tokens, Fixed::End, at + 1) {
            return Ok((
                boxed(self.grammar.alloc, Expr::EmptyBegin { at: number(at) })?,
                at + 2,
            ));
        }
        let (body, after) = self.grammar.sub(tokens, Wanted::Sequence, at + 1)?;
        let after = expect(tokens, Fixed::End, after)?;
        Ok((
            boxed(
                self.grammar.alloc,
                Expr::Begin {
                    at: number(at),
                    body,
                },
            )?,
            after,
        ))
    }

    /// After the `while` at a place.
    #[tactic(auto, unfolding(expr_reading::specs::ExprReading::while_expr), using(ml_trees::proofs::Variants::expr_views))]
    #[inline(never)]
    pub(crate) fn while_loop(
        &self,
        tokens: &TokenTable<'_>,
        at: usize,
    ) -> Result<(Box<Expr>, usize), ReadError>
        requires nests { Nests self.now.grammar.depth (F.pre self.now.grammar.sub) (F.post self.now.grammar.sub) }
        requires few { length tokens.now ≤ max_file_bytes }
        requires within { at < length tokens.now }
        ensures { Gives (λ x. (view x.0.value, from tokens.now x.1)) result (r.while_expr (read_expr self.now.grammar.depth) self.now.grammar.depth (at + 1) (from tokens.now (at + 1))) }
    {
        let (test, after) = self.grammar.sub(tokens, Wanted::Sequence, at + 1)?;
        let after = expect(tokens, Fixed::Do, after)?;
        let (body, after) = self.grammar.sub(tokens, Wanted::Sequence, after)?;
        let after = expect(tokens, Fixed::Done, after)?;
        Ok((while_do(self.grammar.alloc, number(at), test, body)?, after))
    }

    /// After the `for` at a place.
    #[tactic(auto, unfolding(expr_reading::specs::ExprReading::for_expr), using(ml_trees::proofs::Variants::expr_views))]
    #[inline(never)]
    pub(crate) fn for_loop(
        &self,
        tokens: &TokenTable<'_>,
        at: usize,
    ) -> Result<(Box<Expr>, usize), ReadError>
        requires nests { Nests self.now.grammar.depth (F.pre self.now.grammar.sub) (F.post self.now.grammar.sub) }
        requires few { length tokens.now ≤ max_file_bytes }
        requires within { at < length tokens.now }
        ensures { Gives (λ x. (view x.0.value, from tokens.now x.1)) result (r.for_expr (read_expr self.now.grammar.depth) self.now.grammar.depth (at + 1) (from tokens.now (at + 1))) }
    {
        let (variable, after) = variable(self.grammar.alloc, tokens, at + 1)?;
        let (equals, after) = expect_at(tokens, Fixed::Equals, after)?;
        let (from, after) = self.grammar.sub(tokens, Wanted::Sequence, after)?;
        let (down, after) = direction(tokens, after)?;
        let (to, after) = self.grammar.sub(tokens, Wanted::Sequence, after)?;
        let after = expect(tokens, Fixed::Do, after)?;
        let (body, after) = self.grammar.sub(tokens, Wanted::Sequence, after)?;
        let after = expect(tokens, Fixed::Done, after)?;
        Ok((
            boxed(
                self.grammar.alloc,
                Expr::For {
                    at: number(at),
                    variable,
                    equals,
                    from,
                    down,
                    to,
                    body,
                },
            )?,
            after,
        ))
    }
}

/// An operator in parentheses, as a value.
#[tactic(auto, using(ml_trees::proofs::Variants::expr_views))]
#[inline(never)]
fn operator_value(alloc: Global, name: ValueName) -> Result<Box<Expr>, ReadError>
    ensures { Gives (λ e. view e.value) result (Some (pure.Value [] (view_name name))) }
{
    let path = Vec::new(alloc);
    boxed(alloc, Expr::Value { path, name })
}

/// A `while` with its condition and its body.
#[tactic(auto, using(ml_trees::proofs::Variants::expr_views))]
#[inline(never)]
fn while_do(
    alloc: Global,
    at: u32,
    test: Box<Expr>,
    body: Box<Expr>,
) -> Result<Box<Expr>, ReadError>
    ensures { Gives (λ e. view e.value) result (Some (pure.While at (view test.value) (view body.value))) }
{
    boxed(alloc, Expr::While { at, test, body })
}
