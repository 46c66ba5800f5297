//! Bindings.

ghost use Rattle.std.specs.Prelude.{◌≤◌, length, Some};
ghost use Rattle.rotor_base.specs.Limits.{max_file_bytes};
ghost use Rattle.ml_trees.specs.Tree as pure;
ghost use Rattle.ml_trees.specs.View.{view, view_name, view_type, view_pat, view_binding, bindings, params};
ghost use Rattle.token_reading.specs.Gives.{Gives, GivesAt};
ghost use Rattle.token_reading.specs.Tokens.{from};
ghost use Rattle.expr_reading.specs.ExprReading as r;
ghost use Rattle.expr_reading.specs.ExprReading.{read_expr};
ghost use Rattle.expr_parts.specs.Reads.{Nests};

use crate::readers::Forms;
use expr_parts::push_boxed;
use expr_reading::Wanted;
use ml_trees::{Binding, Expr, Fixed, Param, Pat, Run, ValueName};
use std::alloc::Global;
use token_reading::{ReadError, TokenTable, boxed, expect, expect_at, optional_type, value_name};

impl<
    F: Copy
        + Fn(
            Global,
            &TokenTable<'_>,
            usize,
            usize,
            Wanted,
            usize,
        ) -> Result<(Box<Expr>, usize), ReadError>,
> Forms<F> {
    /// A type or none, `=` and an expression. The errors are `Syntax` and `Memory`.
    #[tactic(auto, unfolding(expr_reading::specs::ExprReading::bound))]
    #[inline(never)]
    pub fn read_bound(
        &self,
        tokens: &TokenTable<'_>,
        at: usize,
    ) -> Result<((Option<Run>, u32, Box<Expr>), usize), ReadError>
        requires nests { Nests self.now.grammar.depth (F.pre self.now.grammar.sub) (F.post self.now.grammar.sub) }
        requires few { length tokens.now ≤ max_file_bytes }
        ensures { Gives (λ x. ((view_type x.0.0, x.0.1, view x.0.2.value), from tokens.now x.1)) result (r.bound (read_expr self.now.grammar.depth) self.now.grammar.depth (from tokens.now at)) }
    {
        let (run, at) = optional_type(self.grammar.alloc, tokens, at)?;
        let (equals, at) = expect_at(tokens, Fixed::Equals, at)?;
        let (value, at) = self.grammar.sub(tokens, Wanted::Sequence, at)?;
        Ok(((run, equals, value), at))
    }

    /// A pattern and what it is bound to. The errors are `Syntax` and `Memory`.
    #[tactic(auto, using(ml_trees::proofs::Variants::binding_views))]
    #[inline(never)]
    pub fn plain_binding(
        &self,
        tokens: &TokenTable<'_>,
        at: usize,
    ) -> Result<(Box<Binding>, usize), ReadError>
        requires nests { Nests self.now.grammar.depth (F.pre self.now.grammar.sub) (F.post self.now.grammar.sub) }
        requires few { length tokens.now ≤ max_file_bytes }
        ensures { Gives (λ x. (view_binding x.0.value, from tokens.now x.1)) result (r.plain_binding (read_expr self.now.grammar.depth) self.now.grammar.depth (from tokens.now at)) }
    {
        let (pat, at) = self.boxed_pattern(tokens, at)?;
        let ((run, equals, value), at) = self.read_bound(tokens, at)?;
        Ok((make_plain(self.grammar.alloc, pat, run, equals, value)?, at))
    }

    /// After a name and the parameters behind it: what it is bound to, or, if there are none, the whole from `start`
    /// with a pattern.
    #[tactic(auto, using(crate::proofs::Lists::bound_names))]
    #[inline(never)]
    fn named_binding(
        &self,
        tokens: &TokenTable<'_>,
        start: usize,
        name: ValueName,
        given: Vec<Param>,
        at: usize,
    ) -> Result<(Box<Binding>, usize), ReadError>
        requires nests { Nests self.now.grammar.depth (F.pre self.now.grammar.sub) (F.post self.now.grammar.sub) }
        requires few { length tokens.now ≤ max_file_bytes }
        ensures { GivesAt (λ b. view_binding b.value) tokens.now result (r.named_binding (read_expr self.now.grammar.depth) self.now.grammar.depth (from tokens.now start) (view_name name) (params given.items) (from tokens.now at)) }
    {
        if given.len() == 0 {
            return self.plain_binding(tokens, start);
        }
        let ((run, equals, value), at) = self.read_bound(tokens, at)?;
        Ok((
            make_named(self.grammar.alloc, name, given, run, equals, value)?,
            at,
        ))
    }

    /// A binding. The errors are `Syntax` and `Memory`.
    #[tactic(auto, unfolding(expr_reading::specs::ExprReading::binding))]
    #[inline(never)]
    pub fn binding(
        &self,
        tokens: &TokenTable<'_>,
        at: usize,
    ) -> Result<(Box<Binding>, usize), ReadError>
        requires nests { Nests self.now.grammar.depth (F.pre self.now.grammar.sub) (F.post self.now.grammar.sub) }
        requires few { length tokens.now ≤ max_file_bytes }
        ensures { Gives (λ x. (view_binding x.0.value, from tokens.now x.1)) result (r.binding (read_expr self.now.grammar.depth) self.now.grammar.depth (from tokens.now at)) }
    {
        match value_name(self.grammar.alloc, tokens, at) {
            Ok((name, after)) => {
                let (given, after) = self.more_params(tokens, after)?;
                self.named_binding(tokens, at, name, given, after)
            }
            Err(ReadError::Syntax) => self.plain_binding(tokens, at),
            Err(ReadError::Memory) => Err(ReadError::Memory),
        }
    }

    /// The next binding, behind its `and`. The errors are `Syntax` and `Memory`.
    #[inline(never)]
    pub fn next_binding(
        &self,
        tokens: &TokenTable<'_>,
        at: usize,
    ) -> Result<(Box<Binding>, usize), ReadError>
        requires nests { Nests self.now.grammar.depth (F.pre self.now.grammar.sub) (F.post self.now.grammar.sub) }
        requires few { length tokens.now ≤ max_file_bytes }
        ensures { Gives (λ x. (view_binding x.0.value, from tokens.now x.1)) result (r.next_binding (read_expr self.now.grammar.depth) self.now.grammar.depth (from tokens.now at)) }
    {
        let at = expect(tokens, Fixed::And, at)?;
        self.binding(tokens, at)
    }

    /// Further bindings, as long as each can be read whole. `Memory` is the only error.
    #[inline(never)]
    pub fn more_bindings(
        &self,
        tokens: &TokenTable<'_>,
        at: usize,
    ) -> Result<(Vec<Binding>, usize), ReadError>
        requires nests { Nests self.now.grammar.depth (F.pre self.now.grammar.sub) (F.post self.now.grammar.sub) }
        requires few { length tokens.now ≤ max_file_bytes }
        ensures { Gives (λ x. (bindings x.0.items, from tokens.now x.1)) result (Some (r.more_bindings (read_expr self.now.grammar.depth) self.now.grammar.depth (from tokens.now at))) }
    {
        let mut found = Vec::new(self.grammar.alloc);
        let mut at = at;
        for _turn in 0..self.grammar.depth {
            match self.next_binding(tokens, at) {
                Ok((next, after)) => {
                    push_boxed(&mut found, next)?;
                    at = after;
                }
                Err(ReadError::Syntax) => return Ok((found, at)),
                Err(ReadError::Memory) => return Err(ReadError::Memory),
            }
        }
        Ok((found, at))
    }

    /// Bindings between `and`. The errors are `Syntax` and `Memory`.
    #[tactic(auto, unfolding(expr_reading::specs::ExprReading::bindings))]
    #[inline(never)]
    pub fn all_bindings(
        &self,
        tokens: &TokenTable<'_>,
        at: usize,
    ) -> Result<((Box<Binding>, Vec<Binding>), usize), ReadError>
        requires nests { Nests self.now.grammar.depth (F.pre self.now.grammar.sub) (F.post self.now.grammar.sub) }
        requires few { length tokens.now ≤ max_file_bytes }
        ensures { Gives (λ x. ((view_binding x.0.0.value, bindings x.0.1.items), from tokens.now x.1)) result (r.bindings (read_expr self.now.grammar.depth) self.now.grammar.depth (from tokens.now at)) }
    {
        let (first, at) = self.binding(tokens, at)?;
        let (rest, at) = self.more_bindings(tokens, at)?;
        Ok(((first, rest), at))
    }
}

/// A pattern and what it is bound to.
#[tactic(auto, using(ml_trees::proofs::Variants::binding_views))]
#[inline(never)]
fn make_plain(
    alloc: Global,
    pat: Box<Pat>,
    run: Option<Run>,
    equals: u32,
    value: Box<Expr>,
) -> Result<Box<Binding>, ReadError>
    ensures { Gives (λ b. view_binding b.value) result (Some (pure.PlainBinding (view_pat pat.value) (view_type run) equals (view value.value))) }
{
    let pat = Box::into_inner(pat);
    let value = Box::into_inner(value);
    boxed(
        alloc,
        Binding::Plain {
            pat,
            run,
            equals,
            value,
        },
    )
}

/// A name with parameters and what it is bound to.
#[tactic(auto, using(ml_trees::proofs::Variants::binding_views))]
#[inline(never)]
fn make_named(
    alloc: Global,
    name: ValueName,
    given: Vec<Param>,
    run: Option<Run>,
    equals: u32,
    value: Box<Expr>,
) -> Result<Box<Binding>, ReadError>
    ensures { Gives (λ b. view_binding b.value) result (Some (pure.AppliedBinding (view_name name) (params given.items) (view_type run) equals (view value.value))) }
{
    let value = Box::into_inner(value);
    boxed(
        alloc,
        Binding::Applied {
            name,
            params: given,
            run,
            equals,
            value,
        },
    )
}
