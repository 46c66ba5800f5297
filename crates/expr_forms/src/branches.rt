//! `if`.

ghost use Rattle.std.specs.Prelude.{◌≤◌, ◌<◌, ◌+◌, length, Some};
ghost use Rattle.rotor_base.specs.Limits.{max_file_bytes};
ghost use Rattle.ml_trees.specs.View.{view, tail};
ghost use Rattle.token_reading.specs.Gives.{Gives};
ghost use Rattle.token_reading.specs.Tokens.{from};
ghost use Rattle.expr_reading.specs.ExprReading as r;
ghost use Rattle.expr_reading.specs.ExprReading.{read_expr};
ghost use Rattle.expr_parts.specs.Reads.{Nests};
ghost use Rattle.expr_forms.specs.Forms.{else_tail, otherwise_of};

use crate::readers::Forms;
use expr_parts::{Edge, on_edge};
use expr_reading::Wanted;
use ml_trees::{Branch, Expr, Fixed};
use std::alloc::Global;
use token_reading::{ReadError, TokenTable, boxed, expect, fit, has_fixed, number};

/// What follows an `else`.
#[derive(Drop)]
pub enum Otherwise {
    Last(Box<Expr>),
    If(Branch),
}

impl<
    F: Copy
        + Fn(
            Global,
            &TokenTable<'_>,
            usize,
            usize,
            Wanted,
            usize,
        ) -> Result<(Box<Expr>, usize), ReadError>,
> Forms<F> {
    /// A condition, `then` and a branch. The errors are `Syntax` and `Memory`.
    #[tactic(auto, unfolding(expr_reading::specs::ExprReading::then_branch))]
    #[inline(never)]
    pub fn then_branch(
        &self,
        tokens: &TokenTable<'_>,
        at: usize,
    ) -> Result<((Box<Expr>, Box<Expr>), usize), ReadError>
        requires nests { Nests self.now.grammar.depth (F.pre self.now.grammar.sub) (F.post self.now.grammar.sub) }
        requires few { length tokens.now ≤ max_file_bytes }
        ensures { Gives (λ x. ((view x.0.0.value, view x.0.1.value), from tokens.now x.1)) result (r.then_branch (read_expr self.now.grammar.depth) self.now.grammar.depth (from tokens.now at)) }
    {
        let (test, at) = self.grammar.sub(tokens, Wanted::Sequence, at)?;
        let at = expect(tokens, Fixed::Then, at)?;
        let (then, at) = self.grammar.sub(tokens, Wanted::Expression, at)?;
        Ok(((test, then), at))
    }

    /// An `else` and a branch, or an `else if`. The errors are `Syntax` and `Memory`.
    #[tactic(auto, unfolding(expr_reading::specs::ExprReading::else_branch))]
    #[inline(never)]
    pub fn else_branch(
        &self,
        tokens: &TokenTable<'_>,
        at: usize,
    ) -> Result<(Otherwise, usize), ReadError>
        requires nests { Nests self.now.grammar.depth (F.pre self.now.grammar.sub) (F.post self.now.grammar.sub) }
        requires few { length tokens.now ≤ max_file_bytes }
        ensures { Gives (λ x. (otherwise_of x.0, from tokens.now x.1)) result (r.else_branch (read_expr self.now.grammar.depth) self.now.grammar.depth (from tokens.now at)) }
    {
        let at = expect(tokens, Fixed::Else, at)?;
        if has_fixed(tokens, Fixed::If, at) {
            let ((test, then), after) = self.then_branch(tokens, at + 1)?;
            let branch = Branch {
                at: number(at),
                test: Box::into_inner(test),
                then: Box::into_inner(then),
            };
            return Ok((Otherwise::If(branch), after));
        }
        let (last, at) = self.grammar.sub(tokens, Wanted::Expression, at)?;
        Ok((Otherwise::Last(last), at))
    }

    /// Each `else if`, and the last `else`. `Memory` is the only error.
    #[inline(never)]
    pub fn if_tail(
        &self,
        tokens: &TokenTable<'_>,
        at: usize,
    ) -> Result<((Vec<Branch>, Option<Box<Expr>>), usize), ReadError>
        requires nests { Nests self.now.grammar.depth (F.pre self.now.grammar.sub) (F.post self.now.grammar.sub) }
        requires few { length tokens.now ≤ max_file_bytes }
        ensures { Gives (λ x. (tail x.0.0.items x.0.1, from tokens.now x.1)) result (Some (else_tail self.now.grammar.depth (from tokens.now at))) }
    {
        let mut found = Vec::new(self.grammar.alloc);
        let mut at = at;
        for _turn in 0..self.grammar.depth {
            match self.else_branch(tokens, at) {
                Ok((part, after)) => match part {
                    Otherwise::Last(last) => {
                        return Ok(((fit(found), Some(last)), after));
                    }
                    Otherwise::If(next) => {
                        let goes_on = !on_edge(Edge::OpenIf, &next.then);
                        found.push(next)?;
                        at = after;
                        if !goes_on {
                            return Ok(((fit(found), None), at));
                        }
                    }
                },
                Err(ReadError::Syntax) => return Ok(((fit(found), None), at)),
                Err(ReadError::Memory) => return Err(ReadError::Memory),
            }
        }
        Ok(((fit(found), None), at))
    }

    /// The same behind a branch, if it cannot take them. `Memory` is the only error.
    #[inline(never)]
    pub fn rest_branches(
        &self,
        tokens: &TokenTable<'_>,
        taken: &Expr,
        at: usize,
    ) -> Result<((Vec<Branch>, Option<Box<Expr>>), usize), ReadError>
        requires nests { Nests self.now.grammar.depth (F.pre self.now.grammar.sub) (F.post self.now.grammar.sub) }
        requires few { length tokens.now ≤ max_file_bytes }
        ensures { Gives (λ x. (tail x.0.0.items x.0.1, from tokens.now x.1)) result (Some (r.if_tail (read_expr self.now.grammar.depth) self.now.grammar.depth (view taken.now) (from tokens.now at))) }
    {
        if on_edge(Edge::OpenIf, taken) {
            return Ok(((Vec::new(self.grammar.alloc), None), at));
        }
        self.if_tail(tokens, at)
    }

    /// After the `if` at a place. The errors are `Syntax` and `Memory`.
    #[tactic(auto, unfolding(expr_reading::specs::ExprReading::if_expr), using(ml_trees::proofs::Variants::expr_views))]
    #[inline(never)]
    pub fn if_expr(
        &self,
        tokens: &TokenTable<'_>,
        at: usize,
    ) -> Result<(Box<Expr>, usize), ReadError>
        requires nests { Nests self.now.grammar.depth (F.pre self.now.grammar.sub) (F.post self.now.grammar.sub) }
        requires few { length tokens.now ≤ max_file_bytes }
        requires within { at < length tokens.now }
        ensures { Gives (λ x. (view x.0.value, from tokens.now x.1)) result (r.if_expr (read_expr self.now.grammar.depth) self.now.grammar.depth (at + 1) (from tokens.now (at + 1))) }
    {
        let ((test, then), after) = self.then_branch(tokens, at + 1)?;
        let ((more, otherwise), after) = self.rest_branches(tokens, &then, after)?;
        Ok((
            boxed(
                self.grammar.alloc,
                Expr::If {
                    at: number(at),
                    test,
                    then,
                    more,
                    otherwise,
                },
            )?,
            after,
        ))
    }
}
