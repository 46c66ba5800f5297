//! Applications, and parts behind a `.`.

ghost use Rattle.std.specs.Prelude.{◌≤◌, ◌<◌, ◌+◌, length, Some};
ghost use Rattle.rotor_base.specs.Limits.{max_file_bytes};
ghost use Rattle.ml_trees.specs.Tree as pure;
ghost use Rattle.ml_trees.specs.View.{view, view_argument, view_part, arguments, parts};
ghost use Rattle.token_reading.specs.Gives.{Gives};
ghost use Rattle.token_reading.specs.Tokens.{from};
ghost use Rattle.expr_reading.specs.ExprReading as r;
ghost use Rattle.expr_reading.specs.ExprReading.{read_expr};
ghost use Rattle.expr_parts.specs.Reads.{Nests};
ghost use Rattle.expr_atoms.specs.Parts.{part_after};
ghost use Rattle.expr_parts.specs.Rows.{given, more_parts, wrapped_by, with_parts};

use crate::readers::Atoms;
use expr_parts::{grown_apply, grown_postfix, has_colon, is_bare, is_constr, push_boxed};
use expr_reading::Wanted;
use ml_trees::{Argument, Expr, Fixed, Part};
use rotor_base::Class;
use std::alloc::Global;
use token_reading::{
    Kind, ReadError, TokenTable, boxed, expect, fit, kind_at, lower_word, number, qualifiers,
    take_path, take_word, text, word,
};

impl<
    F: Copy
        + Fn(
            Global,
            &TokenTable<'_>,
            usize,
            usize,
            Wanted,
            usize,
        ) -> Result<(Box<Expr>, usize), ReadError>,
> Atoms<F> {
    /// An expression in parentheses or brackets, or the name of a field.
    #[tactic(auto, using(ml_trees::proofs::Variants::part_views))]
    #[inline(never)]
    fn part_after(
        &self,
        tokens: &TokenTable<'_>,
        at: usize,
    ) -> Result<(Box<Part>, usize), ReadError>
        requires nests { Nests self.now.grammar.depth (F.pre self.now.grammar.sub) (F.post self.now.grammar.sub) }
        requires few { length tokens.now ≤ max_file_bytes }
        ensures { Gives (λ x. (view_part x.0.value, from tokens.now x.1)) result (part_after self.now.grammar.depth (from tokens.now at)) }
    {
        match kind_at(tokens, at) {
            Kind::Fixed(Fixed::LeftParen) => {
                let open = number(at);
                let (index, after) = self.grammar.sub(tokens, Wanted::Sequence, at + 1)?;
                let after = expect(tokens, Fixed::RightParen, after)?;
                Ok((index_part(self.grammar.alloc, open, index)?, after))
            }
            Kind::Fixed(Fixed::LeftBracket) => {
                let open = number(at);
                let (index, after) = self.grammar.sub(tokens, Wanted::Sequence, at + 1)?;
                let after = expect(tokens, Fixed::RightBracket, after)?;
                Ok((char_part(self.grammar.alloc, open, index)?, after))
            }
            _ => {
                let (path, at) = qualifiers(self.grammar.alloc, tokens, self.grammar.depth, at)?;
                let (label, at) = lower_word(self.grammar.alloc, tokens, at)?;
                let part = Part::Select { path, label };
                Ok((boxed(self.grammar.alloc, part)?, at))
            }
        }
    }

    /// A part behind a `.`.
    #[tactic(auto, using(crate::proofs::Lone::part_by))]
    #[inline(never)]
    pub(crate) fn part(
        &self,
        tokens: &TokenTable<'_>,
        at: usize,
    ) -> Result<(Box<Part>, usize), ReadError>
        requires nests { Nests self.now.grammar.depth (F.pre self.now.grammar.sub) (F.post self.now.grammar.sub) }
        requires few { length tokens.now ≤ max_file_bytes }
        ensures { Gives (λ x. (view_part x.0.value, from tokens.now x.1)) result (r.part_behind (read_expr self.now.grammar.depth) self.now.grammar.depth (from tokens.now at)) }
    {
        let at = expect(tokens, Fixed::Dot, at)?;
        self.part_after(tokens, at)
    }

    /// Further parts, as long as each can be read whole.
    #[inline(never)]
    pub(crate) fn more_parts(
        &self,
        tokens: &TokenTable<'_>,
        at: usize,
    ) -> Result<(Vec<Part>, usize), ReadError>
        requires nests { Nests self.now.grammar.depth (F.pre self.now.grammar.sub) (F.post self.now.grammar.sub) }
        requires few { length tokens.now ≤ max_file_bytes }
        ensures { Gives (λ x. (parts x.0.items, from tokens.now x.1)) result (Some (more_parts self.now.grammar.depth (from tokens.now at))) }
    {
        let mut found = Vec::new(self.grammar.alloc);
        let mut at = at;
        for _turn in 0..self.grammar.depth {
            match self.part(tokens, at) {
                Ok((next, after)) => {
                    push_boxed(&mut found, next)?;
                    at = after;
                }
                Err(ReadError::Syntax) => return Ok((fit(found), at)),
                Err(ReadError::Memory) => return Err(ReadError::Memory),
            }
        }
        Ok((fit(found), at))
    }

    /// An expression of level 16, and the parts behind it, but none behind a constructor.
    #[inline(never)]
    fn with_parts(
        &self,
        tokens: &TokenTable<'_>,
        first: Box<Expr>,
        at: usize,
    ) -> Result<(Box<Expr>, usize), ReadError>
        requires nests { Nests self.now.grammar.depth (F.pre self.now.grammar.sub) (F.post self.now.grammar.sub) }
        requires few { length tokens.now ≤ max_file_bytes }
        ensures { Gives (λ x. (view x.0.value, from tokens.now x.1)) result (Some (with_parts self.now.grammar.depth (view first.value) (from tokens.now at))) }
    {
        if is_constr(&first) {
            return Ok((first, at));
        }
        let (rest, at) = self.more_parts(tokens, at)?;
        Ok((grown_postfix(self.grammar.alloc, first, rest)?, at))
    }

    /// An expression of level 15 or 16. The errors are `Syntax` and `Memory`.
    #[tactic(auto, unfolding(expr_reading::specs::ExprReading::postfix))]
    #[inline(never)]
    pub fn postfix(
        &self,
        tokens: &TokenTable<'_>,
        at: usize,
    ) -> Result<(Box<Expr>, usize), ReadError>
        requires nests { Nests self.now.grammar.depth (F.pre self.now.grammar.sub) (F.post self.now.grammar.sub) }
        requires few { length tokens.now ≤ max_file_bytes }
        ensures { Gives (λ x. (view x.0.value, from tokens.now x.1)) result (r.postfix (read_expr self.now.grammar.depth) self.now.grammar.depth (from tokens.now at)) }
    {
        let (first, at) = self.read_prefixed(tokens, at)?;
        self.with_parts(tokens, first, at)
    }

    /// What is given to a function.
    #[inline(never)]
    fn argument_value(&self, tokens: &TokenTable<'_>, at: usize) -> Result<(Expr, usize), ReadError>
        requires nests { Nests self.now.grammar.depth (F.pre self.now.grammar.sub) (F.post self.now.grammar.sub) }
        requires few { length tokens.now ≤ max_file_bytes }
        ensures { Gives (λ x. (view x.0, from tokens.now x.1)) result (r.postfix (read_expr self.now.grammar.depth) self.now.grammar.depth (from tokens.now at)) }
    {
        let (value, at) = self.go_deeper()?.postfix(tokens, at)?;
        Ok((Box::into_inner(value), at))
    }

    /// An argument.
    #[tactic(auto, unfolding(expr_reading::specs::ExprReading::argument), using(ml_trees::proofs::Variants::argument_views))]
    #[inline(never)]
    pub(crate) fn argument(
        &self,
        tokens: &TokenTable<'_>,
        at: usize,
    ) -> Result<(Argument, usize), ReadError>
        requires nests { Nests self.now.grammar.depth (F.pre self.now.grammar.sub) (F.post self.now.grammar.sub) }
        requires few { length tokens.now ≤ max_file_bytes }
        ensures { Gives (λ x. (view_argument x.0, from tokens.now x.1)) result (r.argument (read_expr self.now.grammar.depth) self.now.grammar.depth (from tokens.now at)) }
    {
        match kind_at(tokens, at) {
            Kind::Word(Class::Label) => {
                let label = word(self.grammar.alloc, tokens, Class::Label, at)?;
                if !has_colon(text(tokens, at)) {
                    return Ok((Argument::LabelPun(label), at + 1));
                }
                let (value, after) = self.argument_value(tokens, at + 1)?;
                Ok((Argument::Labelled { label, value }, after))
            }
            _ => {
                let (value, after) = self.argument_value(tokens, at)?;
                Ok((Argument::Positional(value), after))
            }
        }
    }

    /// Further arguments, as long as each can be read whole.
    #[inline(never)]
    pub(crate) fn more_arguments(
        &self,
        tokens: &TokenTable<'_>,
        at: usize,
    ) -> Result<(Vec<Argument>, usize), ReadError>
        requires nests { Nests self.now.grammar.depth (F.pre self.now.grammar.sub) (F.post self.now.grammar.sub) }
        requires few { length tokens.now ≤ max_file_bytes }
        ensures { Gives (λ x. (arguments x.0.items, from tokens.now x.1)) result (Some (r.more_arguments (read_expr self.now.grammar.depth) self.now.grammar.depth (from tokens.now at))) }
    {
        let mut found = Vec::new(self.grammar.alloc);
        let mut at = at;
        for _turn in 0..self.grammar.depth {
            match self.argument(tokens, at) {
                Ok((next, after)) => {
                    found.push(next)?;
                    at = after;
                }
                Err(ReadError::Syntax) => return Ok((fit(found), at)),
                Err(ReadError::Memory) => return Err(ReadError::Memory),
            }
        }
        Ok((fit(found), at))
    }

    /// What it is applied to: a constructor or a tag to one expression at most.
    #[tactic(auto, using(crate::proofs::Lone::constructors))]
    #[inline(never)]
    pub(crate) fn read_applied(
        &self,
        tokens: &TokenTable<'_>,
        head: Box<Expr>,
        at: usize,
    ) -> Result<(Box<Expr>, usize), ReadError>
        requires nests { Nests self.now.grammar.depth (F.pre self.now.grammar.sub) (F.post self.now.grammar.sub) }
        requires few { length tokens.now ≤ max_file_bytes }
        ensures { Gives (λ x. (view x.0.value, from tokens.now x.1)) result (Some (r.applied (read_expr self.now.grammar.depth) self.now.grammar.depth (view head.value) (from tokens.now at))) }
    {
        if !is_bare(&head) {
            let (rest, at) = self.more_arguments(tokens, at)?;
            return Ok((grown_apply(self.grammar.alloc, head, rest)?, at));
        }
        match self.postfix(tokens, at) {
            Ok((argument, after)) => Ok((
                with_argument(self.grammar.alloc, head, argument)?,
                after,
            )),
            Err(ReadError::Syntax) => Ok((head, at)),
            Err(ReadError::Memory) => Err(ReadError::Memory),
        }
    }

    /// An expression of levels 14 to 16. The errors are `Syntax` and `Memory`.
    #[tactic(auto, unfolding(expr_reading::specs::ExprReading::apply))]
    #[inline(never)]
    pub fn application(
        &self,
        tokens: &TokenTable<'_>,
        at: usize,
    ) -> Result<(Box<Expr>, usize), ReadError>
        requires nests { Nests self.now.grammar.depth (F.pre self.now.grammar.sub) (F.post self.now.grammar.sub) }
        requires few { length tokens.now ≤ max_file_bytes }
        ensures { Gives (λ x. (view x.0.value, from tokens.now x.1)) result (r.apply (read_expr self.now.grammar.depth) self.now.grammar.depth (from tokens.now at)) }
    {
        match kind_at(tokens, at) {
            Kind::Fixed(Fixed::Assert) => self.assertion(tokens, at),
            Kind::Fixed(Fixed::Lazy) => self.lazy_value(tokens, at),
            _ => {
                let (head, after) = self.postfix(tokens, at)?;
                self.read_applied(tokens, head, after)
            }
        }
    }

    /// After the `assert` at a place.
    #[tactic(auto, using(ml_trees::proofs::Variants::expr_views))]
    #[inline(never)]
    fn assertion(&self, tokens: &TokenTable<'_>, at: usize) -> Result<(Box<Expr>, usize), ReadError>
        requires nests { Nests self.now.grammar.depth (F.pre self.now.grammar.sub) (F.post self.now.grammar.sub) }
        requires few { length tokens.now ≤ max_file_bytes }
        requires within { at < length tokens.now }
        ensures { Gives (λ x. (view x.0.value, from tokens.now x.1)) result (wrapped_by (pure.Assert (at + 1)) (r.postfix (read_expr self.now.grammar.depth) self.now.grammar.depth (from tokens.now (at + 1)))) }
    {
        let (argument, after) = self.postfix(tokens, at + 1)?;
        let at = number(at);
        Ok((
            boxed(self.grammar.alloc, Expr::Assert { at, argument })?,
            after,
        ))
    }

    /// After the `lazy` at a place.
    #[tactic(auto, using(ml_trees::proofs::Variants::expr_views))]
    #[inline(never)]
    fn lazy_value(
        &self,
        tokens: &TokenTable<'_>,
        at: usize,
    ) -> Result<(Box<Expr>, usize), ReadError>
        requires nests { Nests self.now.grammar.depth (F.pre self.now.grammar.sub) (F.post self.now.grammar.sub) }
        requires few { length tokens.now ≤ max_file_bytes }
        requires within { at < length tokens.now }
        ensures { Gives (λ x. (view x.0.value, from tokens.now x.1)) result (wrapped_by (pure.Lazy (at + 1)) (r.postfix (read_expr self.now.grammar.depth) self.now.grammar.depth (from tokens.now (at + 1)))) }
    {
        let (argument, after) = self.postfix(tokens, at + 1)?;
        let at = number(at);
        Ok((
            boxed(self.grammar.alloc, Expr::Lazy { at, argument })?,
            after,
        ))
    }
}

/// A constructor or a tag with its argument.
#[tactic(auto, using(crate::proofs::Lone::given_other, ml_trees::proofs::Variants::expr_views))]
#[inline(never)]
fn with_argument(
    alloc: Global,
    head: Box<Expr>,
    argument: Box<Expr>,
) -> Result<Box<Expr>, ReadError>
    ensures { Gives (λ e. view e.value) result (Some (given (view head.value) (view argument.value))) }
{
    let mut head = head;
    match &mut *head {
        Expr::Constr(path) => {
            let path = take_path(alloc, path);
            Ok(boxed(alloc, Expr::ConstrApply { path, argument })?)
        }
        Expr::Tag(tag) => {
            let tag = take_word(tag);
            Ok(boxed(alloc, Expr::TagApply { tag, argument })?)
        }
        _ => Ok(head),
    }
}

/// An expression in parentheses behind a `.`.
#[inline(never)]
#[tactic(auto, using(ml_trees::proofs::Variants::part_views))]
fn index_part(alloc: Global, paren: u32, index: Box<Expr>) -> Result<Box<Part>, ReadError>
    ensures { Gives (λ p. view_part p.value) result (Some (pure.IndexPart paren (view index.value))) }
{
    let index = Box::into_inner(index);
    boxed(alloc, Part::Index { open: paren, index })
}

/// An expression in brackets behind a `.`.
#[inline(never)]
#[tactic(auto, using(ml_trees::proofs::Variants::part_views))]
fn char_part(alloc: Global, paren: u32, index: Box<Expr>) -> Result<Box<Part>, ReadError>
    ensures { Gives (λ p. view_part p.value) result (Some (pure.CharPart paren (view index.value))) }
{
    let index = Box::into_inner(index);
    boxed(alloc, Part::CharIndex { open: paren, index })
}
