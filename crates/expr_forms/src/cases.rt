//! `function`, `match` and `try`.

ghost use Rattle.std.specs.Prelude.{◌≡◌, ◌≤◌, ◌<◌, ◌+◌, Bool, length, Some};
ghost use Rattle.rotor_base.specs.Limits.{max_file_bytes};
ghost use Rattle.ml_trees.specs.Tree as pure;
ghost use Rattle.ml_trees.specs.View.{view, view_pat, view_case, maybe, cases};
ghost use Rattle.token_reading.specs.Gives.{Gives, GivesAt};
ghost use Rattle.token_reading.specs.Tokens.{from};
ghost use Rattle.expr_reading.specs.ExprReading as r;
ghost use Rattle.expr_reading.specs.ExprReading.{read_expr};
ghost use Rattle.expr_parts.specs.Reads.{Nests};
ghost use Rattle.expr_forms.specs.Forms.{more_cases, OfCases};

use crate::readers::Forms;
use expr_parts::{Edge, first_bar, on_edge, push_boxed};
use expr_reading::Wanted;
use ml_trees::{Case, Expr, Fixed, Pat};
use std::alloc::Global;
use token_reading::{Kind, ReadError, TokenTable, boxed, expect, kind_at, number};

impl<
    F: Copy
        + Fn(
            Global,
            &TokenTable<'_>,
            usize,
            usize,
            Wanted,
            usize,
        ) -> Result<(Box<Expr>, usize), ReadError>,
> Forms<F> {
    /// A `when` and a guard, or none. The errors are `Syntax` and `Memory`.
    #[inline(never)]
    pub fn guard(
        &self,
        tokens: &TokenTable<'_>,
        at: usize,
    ) -> Result<(Option<Box<Expr>>, usize), ReadError>
        requires nests { Nests self.now.grammar.depth (F.pre self.now.grammar.sub) (F.post self.now.grammar.sub) }
        requires few { length tokens.now ≤ max_file_bytes }
        ensures { Gives (λ x. (maybe x.0, from tokens.now x.1)) result (r.case_guard (read_expr self.now.grammar.depth) self.now.grammar.depth (from tokens.now at)) }
    {
        match kind_at(tokens, at) {
            Kind::Fixed(Fixed::When) => {
                let (guard, at) = self.grammar.sub(tokens, Wanted::Sequence, at + 1)?;
                Ok((Some(guard), at))
            }
            _ => Ok((None, at)),
        }
    }

    /// A case. The errors are `Syntax` and `Memory`.
    #[tactic(auto, unfolding(expr_reading::specs::ExprReading::one_case))]
    #[inline(never)]
    pub fn case(&self, tokens: &TokenTable<'_>, at: usize) -> Result<(Box<Case>, usize), ReadError>
        requires nests { Nests self.now.grammar.depth (F.pre self.now.grammar.sub) (F.post self.now.grammar.sub) }
        requires few { length tokens.now ≤ max_file_bytes }
        ensures { Gives (λ x. (view_case x.0.value, from tokens.now x.1)) result (r.one_case (read_expr self.now.grammar.depth) self.now.grammar.depth (from tokens.now at)) }
    {
        let (pat, at) = self.boxed_pattern(tokens, at)?;
        let (guard, at) = self.guard(tokens, at)?;
        let at = expect(tokens, Fixed::Arrow, at)?;
        let (body, at) = self.grammar.sub(tokens, Wanted::Sequence, at)?;
        Ok((case_of(self.grammar.alloc, pat, guard, body)?, at))
    }

    /// The next case, behind its `|`. The errors are `Syntax` and `Memory`.
    #[inline(never)]
    pub fn next_case(
        &self,
        tokens: &TokenTable<'_>,
        at: usize,
    ) -> Result<(Box<Case>, usize), ReadError>
        requires nests { Nests self.now.grammar.depth (F.pre self.now.grammar.sub) (F.post self.now.grammar.sub) }
        requires few { length tokens.now ≤ max_file_bytes }
        ensures { Gives (λ x. (view_case x.0.value, from tokens.now x.1)) result (r.next_case (read_expr self.now.grammar.depth) self.now.grammar.depth (from tokens.now at)) }
    {
        let at = expect(tokens, Fixed::Bar, at)?;
        self.case(tokens, at)
    }

    /// Further cases, as long as each can be read whole and none of the last one could take them. `Memory` is the only
    /// error.
    #[inline(never)]
    pub fn more_cases(
        &self,
        tokens: &TokenTable<'_>,
        at: usize,
    ) -> Result<(Vec<Case>, usize), ReadError>
        requires nests { Nests self.now.grammar.depth (F.pre self.now.grammar.sub) (F.post self.now.grammar.sub) }
        requires few { length tokens.now ≤ max_file_bytes }
        ensures { Gives (λ x. (cases x.0.items, from tokens.now x.1)) result (Some (more_cases self.now.grammar.depth (from tokens.now at))) }
    {
        let mut found = Vec::new(self.grammar.alloc);
        let mut at = at;
        for _turn in 0..self.grammar.depth {
            match self.next_case(tokens, at) {
                Ok((next, after)) => {
                    let goes_on = ends_case(&next);
                    push_boxed(&mut found, next)?;
                    at = after;
                    if !goes_on {
                        return Ok((found, at));
                    }
                }
                Err(ReadError::Syntax) => return Ok((found, at)),
                Err(ReadError::Memory) => return Err(ReadError::Memory),
            }
        }
        Ok((found, at))
    }

    /// The cases behind the first, if it cannot take them. `Memory` is the only error.
    #[inline(never)]
    pub fn rest_cases(
        &self,
        tokens: &TokenTable<'_>,
        first: &Case,
        at: usize,
    ) -> Result<(Vec<Case>, usize), ReadError>
        requires nests { Nests self.now.grammar.depth (F.pre self.now.grammar.sub) (F.post self.now.grammar.sub) }
        requires few { length tokens.now ≤ max_file_bytes }
        ensures { Gives (λ x. (cases x.0.items, from tokens.now x.1)) result (Some (r.more_cases (read_expr self.now.grammar.depth) self.now.grammar.depth (view_case first.now) (from tokens.now at))) }
    {
        if on_edge(Edge::Cases, &first.body) {
            return Ok((Vec::new(self.grammar.alloc), at));
        }
        self.more_cases(tokens, at)
    }

    /// Cases between `|`, with or without a `|` before the first. The errors are `Syntax` and `Memory`.
    #[tactic(auto, unfolding(expr_reading::specs::ExprReading::all_cases))]
    #[inline(never)]
    pub fn all_cases(
        &self,
        tokens: &TokenTable<'_>,
        at: usize,
    ) -> Result<((bool, Box<Case>, Vec<Case>), usize), ReadError>
        requires nests { Nests self.now.grammar.depth (F.pre self.now.grammar.sub) (F.post self.now.grammar.sub) }
        requires few { length tokens.now ≤ max_file_bytes }
        ensures { (grown : OfCases) → GivesAt (λ c. grown c.0 (view_case c.1.value) (cases c.2.items)) tokens.now result (r.all_cases (read_expr self.now.grammar.depth) self.now.grammar.depth grown (from tokens.now at)) }
    {
        let (bar, at) = first_bar(tokens, at);
        let (first, at) = self.case(tokens, at)?;
        let (rest, at) = self.rest_cases(tokens, &first, at)?;
        Ok(((bar, first, rest), at))
    }

    /// After the `function` at a place. The errors are `Syntax` and `Memory`.
    #[tactic(auto, using(ml_trees::proofs::Variants::expr_views))]
    #[inline(never)]
    pub fn function_expr(
        &self,
        tokens: &TokenTable<'_>,
        at: usize,
    ) -> Result<(Box<Expr>, usize), ReadError>
        requires nests { Nests self.now.grammar.depth (F.pre self.now.grammar.sub) (F.post self.now.grammar.sub) }
        requires few { length tokens.now ≤ max_file_bytes }
        requires within { at < length tokens.now }
        ensures { Gives (λ x. (view x.0.value, from tokens.now x.1)) result (r.all_cases (read_expr self.now.grammar.depth) self.now.grammar.depth (pure.Function (at + 1)) (from tokens.now (at + 1))) }
    {
        let ((bar, first, rest), after) = self.all_cases(tokens, at + 1)?;
        Ok((
            boxed(
                self.grammar.alloc,
                Expr::Function {
                    at: number(at),
                    bar,
                    first,
                    rest,
                },
            )?,
            after,
        ))
    }

    /// After the `match` at a place. The errors are `Syntax` and `Memory`.
    #[tactic(auto, unfolding(expr_reading::specs::ExprReading::match_expr), using(ml_trees::proofs::Variants::expr_views))]
    #[inline(never)]
    pub fn match_expr(
        &self,
        tokens: &TokenTable<'_>,
        at: usize,
    ) -> Result<(Box<Expr>, usize), ReadError>
        requires nests { Nests self.now.grammar.depth (F.pre self.now.grammar.sub) (F.post self.now.grammar.sub) }
        requires few { length tokens.now ≤ max_file_bytes }
        requires within { at < length tokens.now }
        ensures { Gives (λ x. (view x.0.value, from tokens.now x.1)) result (r.match_expr (read_expr self.now.grammar.depth) self.now.grammar.depth (pure.Match (at + 1)) (from tokens.now (at + 1))) }
    {
        let (subject, after) = self.grammar.sub(tokens, Wanted::Sequence, at + 1)?;
        let after = expect(tokens, Fixed::With, after)?;
        let ((bar, first, rest), after) = self.all_cases(tokens, after)?;
        Ok((
            boxed(
                self.grammar.alloc,
                Expr::Match {
                    at: number(at),
                    subject,
                    bar,
                    first,
                    rest,
                },
            )?,
            after,
        ))
    }

    /// After the `try` at a place. The errors are `Syntax` and `Memory`.
    #[tactic(auto, unfolding(expr_reading::specs::ExprReading::match_expr), using(ml_trees::proofs::Variants::expr_views))]
    #[inline(never)]
    pub fn try_expr(
        &self,
        tokens: &TokenTable<'_>,
        at: usize,
    ) -> Result<(Box<Expr>, usize), ReadError>
        requires nests { Nests self.now.grammar.depth (F.pre self.now.grammar.sub) (F.post self.now.grammar.sub) }
        requires few { length tokens.now ≤ max_file_bytes }
        requires within { at < length tokens.now }
        ensures { Gives (λ x. (view x.0.value, from tokens.now x.1)) result (r.match_expr (read_expr self.now.grammar.depth) self.now.grammar.depth (pure.Try (at + 1)) (from tokens.now (at + 1))) }
    {
        let (subject, after) = self.grammar.sub(tokens, Wanted::Sequence, at + 1)?;
        let after = expect(tokens, Fixed::With, after)?;
        let ((bar, first, rest), after) = self.all_cases(tokens, after)?;
        Ok((
            boxed(
                self.grammar.alloc,
                Expr::Try {
                    at: number(at),
                    subject,
                    bar,
                    first,
                    rest,
                },
            )?,
            after,
        ))
    }
}

/// A case.
#[inline(never)]
fn case_of(
    alloc: Global,
    pat: Box<Pat>,
    guard: Option<Box<Expr>>,
    body: Box<Expr>,
) -> Result<Box<Case>, ReadError>
    ensures { Gives (λ c. view_case c.value) result (Some (pure.CaseOf (view_pat pat.value) (maybe guard) (view body.value))) }
{
    let pat = Box::into_inner(pat);
    let body = Box::into_inner(body);
    boxed(alloc, Case { pat, guard, body })
}

/// Whether a further case may follow.
#[inline(never)]
fn ends_case(case: &Case) -> bool
    ensures { result ≡ r.no_cases (view_case case.now) }
{
    !on_edge(Edge::Cases, &case.body)
}
