//! Records.

ghost use Rattle.std.specs.Prelude.{◌≤◌, ◌<◌, ◌+◌, length, Some};
ghost use Rattle.rotor_base.specs.Limits.{max_file_bytes};
ghost use Rattle.ml_trees.specs.Tree as pure;
ghost use Rattle.ml_trees.specs.View.{view, view_word, view_words, view_type, view_field, maybe, fields};
ghost use Rattle.token_reading.specs.Gives.{Gives};
ghost use Rattle.token_reading.specs.Tokens.{from};
ghost use Rattle.expr_reading.specs.declared.wanted.Wanted.TheVariants as wanted;
ghost use Rattle.expr_reading.specs.ExprReading as r;
ghost use Rattle.expr_reading.specs.ExprReading.{read_expr};
ghost use Rattle.expr_parts.specs.Reads.{Nests};
ghost use Rattle.expr_parts.specs.Rows.{fields_rest, more_fields, base_with};

use crate::readers::Atoms;
use expr_parts::{ends_field, fields_end, push_boxed, semicolon_if};
use expr_reading::Wanted;
use ml_trees::{Expr, Field, Fixed, Run, Word};
use std::alloc::Global;
use token_reading::{
    ReadError, TokenTable, boxed, expect, lower_word, number, optional_type, qualifiers,
};

impl<
    F: Copy
        + Fn(
            Global,
            &TokenTable<'_>,
            usize,
            usize,
            Wanted,
            usize,
        ) -> Result<(Box<Expr>, usize), ReadError>,
> Atoms<F> {
    /// A field of a record.
    #[tactic(auto, unfolding(expr_reading::specs::ExprReading::field_expr), using(ml_trees::proofs::Variants::field_views))]
    #[inline(never)]
    pub(crate) fn field(
        &self,
        tokens: &TokenTable<'_>,
        at: usize,
    ) -> Result<(Box<Field>, usize), ReadError>
        requires nests { Nests self.now.grammar.depth (F.pre self.now.grammar.sub) (F.post self.now.grammar.sub) }
        requires few { length tokens.now ≤ max_file_bytes }
        ensures { Gives (λ x. (view_field x.0.value, from tokens.now x.1)) result (r.field_expr (read_expr self.now.grammar.depth) self.now.grammar.depth (from tokens.now at)) }
    {
        let (path, at) = qualifiers(self.grammar.alloc, tokens, self.grammar.depth, at)?;
        let (label, at) = lower_word(self.grammar.alloc, tokens, at)?;
        let (run, at) = optional_type(self.grammar.alloc, tokens, at)?;
        match self.grammar.equals_value(tokens, at) {
            Ok(((equals, value), after)) => Ok((
                make_assigned(self.grammar.alloc, path, label, run, equals, value)?,
                after,
            )),
            Err(ReadError::Syntax) => Ok((field_pun(self.grammar.alloc, path, label, run)?, at)),
            Err(ReadError::Memory) => Err(ReadError::Memory),
        }
    }

    /// The next field, behind its `;`.
    #[inline(never)]
    pub(crate) fn next_field(
        &self,
        tokens: &TokenTable<'_>,
        at: usize,
    ) -> Result<(Box<Field>, usize), ReadError>
        requires nests { Nests self.now.grammar.depth (F.pre self.now.grammar.sub) (F.post self.now.grammar.sub) }
        requires few { length tokens.now ≤ max_file_bytes }
        ensures { Gives (λ x. (view_field x.0.value, from tokens.now x.1)) result (r.next_field (read_expr self.now.grammar.depth) self.now.grammar.depth (from tokens.now at)) }
    {
        let at = expect(tokens, Fixed::Semicolon, at)?;
        self.field(tokens, at)
    }

    /// Further fields, as long as each can be read whole and a `;` may follow the last.
    #[inline(never)]
    pub(crate) fn more_fields(
        &self,
        tokens: &TokenTable<'_>,
        at: usize,
    ) -> Result<(Vec<Field>, usize), ReadError>
        requires nests { Nests self.now.grammar.depth (F.pre self.now.grammar.sub) (F.post self.now.grammar.sub) }
        requires few { length tokens.now ≤ max_file_bytes }
        ensures { Gives (λ x. (fields x.0.items, from tokens.now x.1)) result (Some (more_fields self.now.grammar.depth (from tokens.now at))) }
    {
        let mut found = Vec::new(self.grammar.alloc);
        let mut at = at;
        for _turn in 0..self.grammar.depth {
            match self.next_field(tokens, at) {
                Ok((next, after)) => {
                    let goes_on = ends_field(&next);
                    push_boxed(&mut found, next)?;
                    at = after;
                    if !goes_on {
                        return Ok((found, at));
                    }
                }
                Err(ReadError::Syntax) => return Ok((found, at)),
                Err(ReadError::Memory) => return Err(ReadError::Memory),
            }
        }
        Ok((found, at))
    }

    /// What follows the first field: further ones, and whether there is a last `;`.
    #[inline(never)]
    pub(crate) fn rest_of_fields(
        &self,
        tokens: &TokenTable<'_>,
        first: &Field,
        at: usize,
    ) -> Result<((Vec<Field>, bool), usize), ReadError>
        requires nests { Nests self.now.grammar.depth (F.pre self.now.grammar.sub) (F.post self.now.grammar.sub) }
        requires few { length tokens.now ≤ max_file_bytes }
        ensures { Gives (λ x. ((fields x.0.0.items, x.0.1), from tokens.now x.1)) result (Some (fields_rest self.now.grammar.depth (view_field first.now) (from tokens.now at))) }
    {
        if !ends_field(first) {
            return Ok(((Vec::new(self.grammar.alloc), false), at));
        }
        let (rest, at) = self.more_fields(tokens, at)?;
        let may = fields_end(first, &rest);
        let (last, at) = semicolon_if(tokens, may, at);
        Ok(((rest, last), at))
    }

    /// An expression and `with`.
    #[inline(never)]
    pub(crate) fn base_with(
        &self,
        tokens: &TokenTable<'_>,
        at: usize,
    ) -> Result<(Box<Expr>, usize), ReadError>
        requires nests { Nests self.now.grammar.depth (F.pre self.now.grammar.sub) (F.post self.now.grammar.sub) }
        requires few { length tokens.now ≤ max_file_bytes }
        ensures { Gives (λ x. (view x.0.value, from tokens.now x.1)) result (base_with (read_expr self.now.grammar.depth wanted.Postfix (from tokens.now at))) }
    {
        let (base, at) = self.grammar.sub(tokens, Wanted::Postfix, at)?;
        let at = expect(tokens, Fixed::With, at)?;
        Ok((base, at))
    }

    /// An expression and `with`, or none.
    #[inline(never)]
    pub(crate) fn base(
        &self,
        tokens: &TokenTable<'_>,
        at: usize,
    ) -> Result<(Option<Box<Expr>>, usize), ReadError>
        requires nests { Nests self.now.grammar.depth (F.pre self.now.grammar.sub) (F.post self.now.grammar.sub) }
        requires few { length tokens.now ≤ max_file_bytes }
        ensures { Gives (λ x. (maybe x.0, from tokens.now x.1)) result (Some (r.base_part (read_expr self.now.grammar.depth) self.now.grammar.depth (from tokens.now at))) }
    {
        match self.base_with(tokens, at) {
            Ok((base, after)) => Ok((Some(base), after)),
            Err(ReadError::Syntax) => Ok((None, at)),
            Err(ReadError::Memory) => Err(ReadError::Memory),
        }
    }

    /// After the `{` at a place.
    #[tactic(auto, unfolding(expr_reading::specs::ExprReading::brace_expr), using(ml_trees::proofs::Variants::expr_views))]
    #[inline(never)]
    pub(crate) fn record(
        &self,
        tokens: &TokenTable<'_>,
        at: usize,
    ) -> Result<(Box<Expr>, usize), ReadError>
        requires nests { Nests self.now.grammar.depth (F.pre self.now.grammar.sub) (F.post self.now.grammar.sub) }
        requires few { length tokens.now ≤ max_file_bytes }
        requires within { at < length tokens.now }
        ensures { Gives (λ x. (view x.0.value, from tokens.now x.1)) result (r.brace_expr (read_expr self.now.grammar.depth) self.now.grammar.depth (at + 1) (from tokens.now (at + 1))) }
    {
        let (base, after) = self.base(tokens, at + 1)?;
        let (first, after) = self.field(tokens, after)?;
        let ((rest, last), after) = self.rest_of_fields(tokens, &first, after)?;
        let after = expect(tokens, Fixed::RightBrace, after)?;
        let at = number(at);
        Ok((
            record_of(self.grammar.alloc, at, base, first, rest, last)?,
            after,
        ))
    }
}

/// A field and its value.
#[inline(never)]
#[tactic(auto, using(ml_trees::proofs::Variants::field_views))]
fn make_assigned(
    alloc: Global,
    path: Vec<Word>,
    label: Word,
    run: Option<Run>,
    equals: u32,
    value: Box<Expr>,
) -> Result<Box<Field>, ReadError>
    ensures { Gives (λ f. view_field f.value) result (Some (pure.AssignedField (view_words path.items) (view_word label) (view_type run) equals (view value.value))) }
{
    let value = Box::into_inner(value);
    boxed(
        alloc,
        Field::Assigned {
            path,
            label,
            run,
            equals,
            value,
        },
    )
}

/// A field without a value.
#[inline(never)]
#[tactic(auto, using(ml_trees::proofs::Variants::field_views))]
fn field_pun(
    alloc: Global,
    path: Vec<Word>,
    label: Word,
    run: Option<Run>,
) -> Result<Box<Field>, ReadError>
    ensures { Gives (λ f. view_field f.value) result (Some (pure.FieldPun (view_words path.items) (view_word label) (view_type run))) }
{
    boxed(alloc, Field::FieldPun { path, label, run })
}

/// A record.
#[inline(never)]
#[tactic(auto, using(ml_trees::proofs::Variants::expr_views))]
fn record_of(
    alloc: Global,
    at: u32,
    base: Option<Box<Expr>>,
    first: Box<Field>,
    rest: Vec<Field>,
    last: bool,
) -> Result<Box<Expr>, ReadError>
    ensures { Gives (λ e. view e.value) result (Some (pure.Record at (maybe base) (view_field first.value) (fields rest.items) last)) }
{
    boxed(
        alloc,
        Expr::Record {
            at,
            base,
            first,
            rest,
            last,
        },
    )
}
