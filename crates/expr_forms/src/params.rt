//! Parameters.

ghost use Rattle.std.specs.Prelude.{◌≤◌, ◌<◌, ◌+◌, ◌∷◌, [], length, Some};
ghost use Rattle.rotor_base.specs.Limits.{max_file_bytes};
ghost use Rattle.ml_trees.specs.Tree as pure;
ghost use Rattle.ml_trees.specs.View.{view, view_word, view_words, view_type, view_pat, view_param, params};
ghost use Rattle.token_reading.specs.Steps.{many, always};
ghost use Rattle.token_reading.specs.PatReading.{read_pat};
ghost use Rattle.token_reading.specs.Gives.{name_at, Gives, GivesAt};
ghost use Rattle.token_reading.specs.Tokens.{from};
ghost use Rattle.expr_reading.specs.ExprReading as r;
ghost use Rattle.expr_reading.specs.ExprReading.{read_expr};
ghost use Rattle.expr_parts.specs.Reads.{Nests};
ghost use Rattle.expr_forms.specs.Forms.{default_end, wrapped_label};
ghost use Rattle.token_reading.specs.Pieces.{lower_word};

use crate::readers::Forms;
use expr_parts::{has_colon, is_optional, push_boxed};
use expr_reading::Wanted;
use ml_trees::{Expr, Fixed, Param, Pat, Run, Word};
use pattern_reading::{pattern, simple_pattern};
use rotor_base::Class;
use std::alloc::Global;
use token_reading::{
    Kind, ReadError, TokenTable, boxed, expect, expect_at, fit, has_fixed, kind_at, lower_word,
    number, optional_type, text, word,
};

impl<
    F: Copy
        + Fn(
            Global,
            &TokenTable<'_>,
            usize,
            usize,
            Wanted,
            usize,
        ) -> Result<(Box<Expr>, usize), ReadError>,
> Forms<F> {
    /// A pattern. The errors are `Syntax` and `Memory`.
    #[inline(never)]
    pub fn pattern(&self, tokens: &TokenTable<'_>, at: usize) -> Result<(Pat, usize), ReadError>
        requires few { length tokens.now ≤ max_file_bytes }
        ensures { Gives (λ x. (view_pat x.0, from tokens.now x.1)) result (read_pat self.now.grammar.depth (from tokens.now at)) }
    {
        pattern(
            self.grammar.alloc,
            tokens,
            self.grammar.depth,
            self.grammar.levels / 2,
            at,
        )
    }

    /// The same, in a box. The errors are `Syntax` and `Memory`.
    #[inline(never)]
    pub fn boxed_pattern(
        &self,
        tokens: &TokenTable<'_>,
        at: usize,
    ) -> Result<(Box<Pat>, usize), ReadError>
        requires few { length tokens.now ≤ max_file_bytes }
        ensures { Gives (λ x. (view_pat x.0.value, from tokens.now x.1)) result (read_pat self.now.grammar.depth (from tokens.now at)) }
    {
        let (pat, at) = self.pattern(tokens, at)?;
        Ok((boxed(self.grammar.alloc, pat)?, at))
    }

    /// A Simple pattern. The errors are `Syntax` and `Memory`.
    #[inline(never)]
    pub fn read_simple(
        &self,
        tokens: &TokenTable<'_>,
        at: usize,
    ) -> Result<(Box<Pat>, usize), ReadError>
        requires few { length tokens.now ≤ max_file_bytes }
        ensures { Gives (λ x. (view_pat x.0.value, from tokens.now x.1)) result (r.simple_at self.now.grammar.depth (from tokens.now at)) }
    {
        let (pat, at) = simple_pattern(
            self.grammar.alloc,
            tokens,
            self.grammar.depth,
            self.grammar.levels / 2,
            at,
        )?;
        Ok((boxed(self.grammar.alloc, pat)?, at))
    }

    /// After the pattern of a default value and its type.
    #[tactic(auto, using(ml_trees::proofs::Variants::param_views))]
    #[inline(never)]
    fn default_end(
        &self,
        tokens: &TokenTable<'_>,
        label: Word,
        paren: u32,
        pat: Box<Pat>,
        run: Option<Run>,
        at: usize,
    ) -> Result<(Box<Param>, usize), ReadError>
        requires nests { Nests self.now.grammar.depth (F.pre self.now.grammar.sub) (F.post self.now.grammar.sub) }
        requires few { length tokens.now ≤ max_file_bytes }
        ensures { Gives (λ x. (view_param x.0.value, from tokens.now x.1)) result (default_end self.now.grammar.depth (view_word label) paren (view_pat pat.value) (view_type run) (from tokens.now at)) }
    {
        let (equals, at) = expect_at(tokens, Fixed::Equals, at)?;
        let (value, at) = self.grammar.sub(tokens, Wanted::Expression, at)?;
        let at = expect(tokens, Fixed::RightParen, at)?;
        let param = with_default(self.grammar.alloc, label, paren, pat, run, equals, value)?;
        Ok((param, at))
    }

    /// After an optional label: in parentheses a pattern, its type or none, and a default value.
    #[tactic(auto, unfolding(expr_reading::specs::ExprReading::default_param))]
    #[inline(never)]
    pub fn default_param(
        &self,
        tokens: &TokenTable<'_>,
        label: Word,
        at: usize,
    ) -> Result<(Box<Param>, usize), ReadError>
        requires nests { Nests self.now.grammar.depth (F.pre self.now.grammar.sub) (F.post self.now.grammar.sub) }
        requires few { length tokens.now ≤ max_file_bytes }
        ensures { Gives (λ x. (view_param x.0.value, from tokens.now x.1)) result (r.default_param (read_expr self.now.grammar.depth) self.now.grammar.depth (view_word label) (from tokens.now at)) }
    {
        if !has_fixed(tokens, Fixed::LeftParen, at) {
            return Err(ReadError::Syntax);
        }
        let paren = number(at);
        let (pat, at) = self.boxed_pattern(tokens, at + 1)?;
        let (run, at) = optional_type(self.grammar.alloc, tokens, at)?;
        self.default_end(tokens, label, paren, pat, run, at)
    }

    /// The parameter that the label at a place begins. The errors are `Syntax` and `Memory`.
    #[tactic(auto, using(ml_trees::proofs::Variants::param_views))]
    #[inline(never)]
    pub fn label_param(
        &self,
        tokens: &TokenTable<'_>,
        at: usize,
    ) -> Result<(Box<Param>, usize), ReadError>
        requires nests { Nests self.now.grammar.depth (F.pre self.now.grammar.sub) (F.post self.now.grammar.sub) }
        requires few { length tokens.now ≤ max_file_bytes }
        requires within { at < length tokens.now }
        ensures { Gives (λ x. (view_param x.0.value, from tokens.now x.1)) result (r.label_param (read_expr self.now.grammar.depth) self.now.grammar.depth (name_at tokens.now at) (from tokens.now (at + 1))) }
    {
        let label = word(self.grammar.alloc, tokens, Class::Label, at)?;
        if !has_colon(text(tokens, at)) {
            return Ok((boxed(self.grammar.alloc, Param::Label(label))?, at + 1));
        }
        match self.read_simple(tokens, at + 1) {
            Ok((pat, after)) => Ok((with_label(self.grammar.alloc, label, pat)?, after)),
            Err(ReadError::Syntax) => {
                if !is_optional(text(tokens, at)) {
                    return Err(ReadError::Syntax);
                }
                self.default_param(tokens, label, at + 1)
            }
            Err(ReadError::Memory) => Err(ReadError::Memory),
        }
    }

    /// After the label in parentheses and its type. `first` is the place of the `~` or `?`, and `paren` is the number
    /// of the `(`.
    #[tactic(auto, using(ml_trees::proofs::Variants::param_views))]
    #[inline(never)]
    fn wrapped_end(
        &self,
        tokens: &TokenTable<'_>,
        first: usize,
        optional: bool,
        paren: u32,
        name: Word,
        run: Option<Run>,
        at: usize,
    ) -> Result<(Box<Param>, usize), ReadError>
        requires nests { Nests self.now.grammar.depth (F.pre self.now.grammar.sub) (F.post self.now.grammar.sub) }
        requires few { length tokens.now ≤ max_file_bytes }
        requires inside { first < length tokens.now }
        ensures { Gives (λ x. (view_param x.0.value, from tokens.now x.1)) result (r.wrapped_end (read_expr self.now.grammar.depth) self.now.grammar.depth (first + 1) optional paren (view_word name) (view_type run) (from tokens.now at)) }
    {
        if has_fixed(tokens, Fixed::RightParen, at) {
            let param = make_wrapped(
                self.grammar.alloc,
                number(first),
                optional,
                paren,
                name,
                run,
            )?;
            return Ok((param, at + 1));
        }
        if !optional {
            return Err(ReadError::Syntax);
        }
        let (equals, at) = expect_at(tokens, Fixed::Equals, at)?;
        let (value, at) = self.grammar.sub(tokens, Wanted::Expression, at)?;
        let at = expect(tokens, Fixed::RightParen, at)?;
        let first = number(first);
        let param = make_wrapped_default(
            self.grammar.alloc,
            first,
            paren,
            name,
            run,
            equals,
            value,
        )?;
        Ok((param, at))
    }

    /// After the `(` behind the `~` or `?` at `first`: a label, its type or none, and a default value or none.
    #[inline(never)]
    fn wrapped_label(
        &self,
        tokens: &TokenTable<'_>,
        first: usize,
        optional: bool,
        paren: u32,
        at: usize,
    ) -> Result<(Box<Param>, usize), ReadError>
        requires nests { Nests self.now.grammar.depth (F.pre self.now.grammar.sub) (F.post self.now.grammar.sub) }
        requires few { length tokens.now ≤ max_file_bytes }
        requires inside { first < length tokens.now }
        ensures { Gives (λ x. (view_param x.0.value, from tokens.now x.1)) result (wrapped_label self.now.grammar.depth (first + 1) optional paren (from tokens.now at)) }
    {
        let (name, at) = lower_word(self.grammar.alloc, tokens, at)?;
        let (run, at) = optional_type(self.grammar.alloc, tokens, at)?;
        self.wrapped_end(tokens, first, optional, paren, name, run, at)
    }

    /// After the `~` or `?` at a place: the part in parentheses.
    #[tactic(auto, using(crate::proofs::Lists::wrapped_by))]
    #[inline(never)]
    fn wrapped_param(
        &self,
        tokens: &TokenTable<'_>,
        optional: bool,
        at: usize,
    ) -> Result<(Box<Param>, usize), ReadError>
        requires nests { Nests self.now.grammar.depth (F.pre self.now.grammar.sub) (F.post self.now.grammar.sub) }
        requires few { length tokens.now ≤ max_file_bytes }
        requires within { at < length tokens.now }
        ensures { Gives (λ x. (view_param x.0.value, from tokens.now x.1)) result (r.wrapped_param (read_expr self.now.grammar.depth) self.now.grammar.depth (at + 1) optional (from tokens.now (at + 1))) }
    {
        let (paren, after) = expect_at(tokens, Fixed::LeftParen, at + 1)?;
        self.wrapped_label(tokens, at, optional, paren, after)
    }

    /// Names of types. `Memory` is the only error.
    #[inline(never)]
    pub fn more_types(
        &self,
        tokens: &TokenTable<'_>,
        at: usize,
    ) -> Result<(Vec<Word>, usize), ReadError>
        requires nests { Nests self.now.grammar.depth (F.pre self.now.grammar.sub) (F.post self.now.grammar.sub) }
        requires few { length tokens.now ≤ max_file_bytes }
        ensures { Gives (λ x. (view_words x.0.items, from tokens.now x.1)) result (Some (many [] ◌∷◌ always lower_word self.now.grammar.depth (from tokens.now at))) }
    {
        let mut found = Vec::new(self.grammar.alloc);
        let mut at = at;
        for _turn in 0..self.grammar.depth {
            match lower_word(self.grammar.alloc, tokens, at) {
                Ok((next, after)) => {
                    found.push(next)?;
                    at = after;
                }
                Err(ReadError::Syntax) => return Ok((fit(found), at)),
                Err(ReadError::Memory) => return Err(ReadError::Memory),
            }
        }
        Ok((fit(found), at))
    }

    /// After the names of types behind the `(` at `start`.
    #[tactic(auto, using(crate::proofs::Lists::types, ml_trees::proofs::Variants::param_views))]
    #[inline(never)]
    fn types_end(
        &self,
        tokens: &TokenTable<'_>,
        start: usize,
        names: Vec<Word>,
        at: usize,
    ) -> Result<(Param, usize), ReadError>
        requires nests { Nests self.now.grammar.depth (F.pre self.now.grammar.sub) (F.post self.now.grammar.sub) }
        requires few { length tokens.now ≤ max_file_bytes }
        requires within { start < length tokens.now }
        ensures { Gives (λ x. (view_param x.0, from tokens.now x.1)) result (r.types_end (read_expr self.now.grammar.depth) self.now.grammar.depth (start + 1) (view_words names.items, from tokens.now at)) }
    {
        if names.len() == 0 {
            return Err(ReadError::Syntax);
        }
        let open = number(start);
        let after = expect(tokens, Fixed::RightParen, at)?;
        Ok((Param::Types { open, names }, after))
    }

    /// After the `( type` at a place: names of types. The errors are `Syntax` and `Memory`.
    #[inline(never)]
    pub fn types_param(
        &self,
        tokens: &TokenTable<'_>,
        at: usize,
    ) -> Result<(Box<Param>, usize), ReadError>
        requires nests { Nests self.now.grammar.depth (F.pre self.now.grammar.sub) (F.post self.now.grammar.sub) }
        requires few { length tokens.now ≤ max_file_bytes }
        requires within { at < length tokens.now }
        ensures { GivesAt (λ p. view_param p.value) tokens.now result (r.types_end (read_expr self.now.grammar.depth) self.now.grammar.depth (at + 1) (many [] ◌∷◌ always lower_word self.now.grammar.depth (from tokens.now (at + 2)))) }
    {
        let (names, after) = self.more_types(tokens, at + 2)?;
        let (param, after) = self.types_end(tokens, at, names, after)?;
        Ok((boxed(self.grammar.alloc, param)?, after))
    }

    /// A parameter. The errors are `Syntax` and `Memory`.
    #[tactic(auto, unfolding(expr_reading::specs::ExprReading::param), using(ml_trees::proofs::Variants::param_views))]
    #[inline(never)]
    pub fn param(
        &self,
        tokens: &TokenTable<'_>,
        at: usize,
    ) -> Result<(Box<Param>, usize), ReadError>
        requires nests { Nests self.now.grammar.depth (F.pre self.now.grammar.sub) (F.post self.now.grammar.sub) }
        requires few { length tokens.now ≤ max_file_bytes }
        ensures { Gives (λ x. (view_param x.0.value, from tokens.now x.1)) result (r.param (read_expr self.now.grammar.depth) self.now.grammar.depth (from tokens.now at)) }
    {
        match kind_at(tokens, at) {
            Kind::Word(Class::Label) => self.label_param(tokens, at),
            Kind::Fixed(Fixed::Tilde) => self.wrapped_param(tokens, false, at),
            Kind::Fixed(Fixed::Question) => self.wrapped_param(tokens, true, at),
            Kind::Fixed(Fixed::LeftParen) => {
                if has_fixed(tokens, Fixed::Type, at + 1) {
                    return self.types_param(tokens, at);
                }
                let (pat, after) = self.read_simple(tokens, at)?;
                Ok((pattern_param(self.grammar.alloc, pat)?, after))
            }
            _ => {
                let (pat, after) = self.read_simple(tokens, at)?;
                Ok((pattern_param(self.grammar.alloc, pat)?, after))
            }
        }
    }

    /// Further parameters, as long as each can be read whole. `Memory` is the only error.
    #[inline(never)]
    pub fn more_params(
        &self,
        tokens: &TokenTable<'_>,
        at: usize,
    ) -> Result<(Vec<Param>, usize), ReadError>
        requires nests { Nests self.now.grammar.depth (F.pre self.now.grammar.sub) (F.post self.now.grammar.sub) }
        requires few { length tokens.now ≤ max_file_bytes }
        ensures { Gives (λ x. (params x.0.items, from tokens.now x.1)) result (Some (r.more_params (read_expr self.now.grammar.depth) self.now.grammar.depth (from tokens.now at))) }
    {
        let mut found = Vec::new(self.grammar.alloc);
        let mut at = at;
        for _turn in 0..self.grammar.depth {
            match self.param(tokens, at) {
                Ok((next, after)) => {
                    push_boxed(&mut found, next)?;
                    at = after;
                }
                Err(ReadError::Syntax) => return Ok((fit(found), at)),
                Err(ReadError::Memory) => return Err(ReadError::Memory),
            }
        }
        Ok((fit(found), at))
    }
}

/// A pattern as a parameter.
#[inline(never)]
#[tactic(auto, using(ml_trees::proofs::Variants::param_views))]
fn pattern_param(alloc: Global, pat: Box<Pat>) -> Result<Box<Param>, ReadError>
    ensures { Gives (λ p. view_param p.value) result (Some (pure.PatternParam (view_pat pat.value))) }
{
    boxed(alloc, Param::Pattern(Box::into_inner(pat)))
}

/// A label and a pattern.
#[inline(never)]
#[tactic(auto, using(ml_trees::proofs::Variants::param_views))]
fn with_label(alloc: Global, label: Word, pat: Box<Pat>) -> Result<Box<Param>, ReadError>
    ensures { Gives (λ p. view_param p.value) result (Some (pure.LabelPattern (view_word label) (view_pat pat.value))) }
{
    let pat = Box::into_inner(pat);
    boxed(alloc, Param::LabelPattern { label, pat })
}

/// A label, a pattern, its type or none, and a default value.
#[inline(never)]
#[tactic(auto, using(ml_trees::proofs::Variants::param_views))]
fn with_default(
    alloc: Global,
    label: Word,
    paren: u32,
    pat: Box<Pat>,
    run: Option<Run>,
    equals: u32,
    value: Box<Expr>,
) -> Result<Box<Param>, ReadError>
    ensures { Gives (λ p. view_param p.value) result (Some (pure.DefaultParam (view_word label) paren (view_pat pat.value) (view_type run) equals (view value.value))) }
{
    let pat = Box::into_inner(pat);
    let value = Box::into_inner(value);
    boxed(
        alloc,
        Param::Default {
            label,
            open: paren,
            pat,
            run,
            equals,
            value,
        },
    )
}

/// A label in parentheses, and its type or none.
#[inline(never)]
#[tactic(auto, using(ml_trees::proofs::Variants::param_views))]
fn make_wrapped(
    alloc: Global,
    at: u32,
    optional: bool,
    paren: u32,
    name: Word,
    run: Option<Run>,
) -> Result<Box<Param>, ReadError>
    ensures { Gives (λ p. view_param p.value) result (Some (pure.WrappedParam at optional paren (view_word name) (view_type run))) }
{
    boxed(
        alloc,
        Param::Wrapped {
            at,
            optional,
            open: paren,
            name,
            run,
        },
    )
}

/// The same with a default value.
#[inline(never)]
#[tactic(auto, using(ml_trees::proofs::Variants::param_views))]
fn make_wrapped_default(
    alloc: Global,
    at: u32,
    paren: u32,
    name: Word,
    run: Option<Run>,
    equals: u32,
    value: Box<Expr>,
) -> Result<Box<Param>, ReadError>
    ensures { Gives (λ p. view_param p.value) result (Some (pure.WrappedDefault at paren (view_word name) (view_type run) equals (view value.value))) }
{
    let value = Box::into_inner(value);
    boxed(
        alloc,
        Param::WrappedDefault {
            at,
            open: paren,
            name,
            run,
            equals,
            value,
        },
    )
}
