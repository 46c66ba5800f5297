//! Patterns. Each reader takes the reader of what nests deeper as a parameter, so that each is proved by itself.
//!
//! If a part fails behind what was read (the argument of a constructor, the pattern behind a separator or an `=`, the
//! parenthesis behind a path and its `.`), the reader keeps what precedes the part, and goes on at the place where the
//! part began. There it tests only for separators and closing brackets, none of which begins such a part. So no part is
//! read twice from one place, and the reading is linear without a table of failed readings.
//!
//! What a level of nesting does not go through is kept out of line, so that the stack of a level stays small.

ghost use Rattle.std.specs.Prelude.{◌≡◌, ◌≤◌, ◌<◌, ◌+◌, ◌∷◌, [], true, false, length, map, Some, None, if◌then◌else◌};
ghost use Rattle.rotor_base.specs.Limits.{max_file_bytes};
ghost use Rattle.ml_trees.specs.Tree as pure;
ghost use Rattle.ml_trees.specs.declared.fixed.Fixed.TheVariants as key;
ghost use Rattle.ml_trees.specs.View.{view_word, view_words, view_path, view_name, view_names, view_run, view_type, view_pat, view_pat_field, pats, pat_fields};
ghost use Rattle.token_reading.specs.Steps.{many, always};
ghost use Rattle.token_reading.specs.PatReading as r;
ghost use Rattle.ml_trees.specs.Tok.{is_placed};
ghost use Rattle.ml_trees.specs.Events.{closing};
ghost use Rattle.ml_trees.specs.WellFormed.{is_minus, is_number, is_literal};
ghost use Rattle.token_reading.specs.Rows.{path_from, inner_pat, with_argument};
ghost use Rattle.token_reading.specs.PatReading.{read_pat};
ghost use Rattle.token_reading.specs.Gives.{name_at, text_at, Gives, Nests};
ghost use Rattle.token_reading.specs.Tokens.{from};

use crate::grown::{grown_as, grown_cons, grown_or, grown_tuple};
use ml_trees::{Bracket, Fixed, Pat, PatField, Path, ValueName, Word};
use rotor_base::Class;
use std::alloc::Global;
use token_reading::{
    Kind, ReadError, TokenTable, boxed, expect, expect_at, fit, has_fixed, is_minus, kind_at,
    lower_word, more_uppers, number, operator, optional_type, qualifiers, take_path, take_word,
    text, type_run, value_name, word,
};

/// The context of the readers of patterns.
#[derive(Clone, Copy)]
pub struct Grammar<F> {
    pub alloc: Global,
    /// More than the tokens that are left to the patterns within: how often a reader may go down, or a loop turn.
    pub depth: usize,
    /// How many levels patterns may still nest.
    pub levels: usize,
    pub sub: F,
}

impl<
    F: Fn(Global, &TokenTable<'_>, usize, usize, usize) -> Result<(Pat, usize), ReadError>,
> Grammar<F> {
    fn sub(&self, tokens: &TokenTable<'_>, at: usize) -> Result<(Pat, usize), ReadError>
        requires nests { Nests self.now.depth (F.pre self.now.sub) (F.post self.now.sub) }
        requires few { length tokens.now ≤ max_file_bytes }
        ensures { Gives (λ x. (view_pat x.0, from tokens.now x.1)) result (read_pat self.now.depth (from tokens.now at)) }
    {
        (self.sub)(self.alloc, tokens, self.depth, self.levels, at)
    }

    /// After a pattern in parentheses: a `)`, or a type and a `)`. `paren` is the place of the `(`.
    #[tactic(auto, using(ml_trees::proofs::Variants::pat_views))]
    #[inline(never)]
    fn read_closed(
        &self,
        tokens: &TokenTable<'_>,
        paren: usize,
        inner: Pat,
        at: usize,
    ) -> Result<(Pat, usize), ReadError>
        requires within { paren < length tokens.now }
        requires few { length tokens.now ≤ max_file_bytes }
        ensures { Gives (λ x. (view_pat x.0, from tokens.now x.1)) result (r.closed_by (paren + 1) (view_pat inner) (from tokens.now at)) }
    {
        match kind_at(tokens, at) {
            Kind::Fixed(Fixed::RightParen) => Ok((
                Pat::Paren {
                    at: number(paren),
                    pat: boxed(self.alloc, inner)?,
                },
                at + 1,
            )),
            Kind::Fixed(Fixed::Colon) => {
                let (run, at) = type_run(self.alloc, tokens, at + 1)?;
                let at = expect(tokens, Fixed::RightParen, at)?;
                Ok((
                    Pat::Typed {
                        at: number(paren),
                        pat: boxed(self.alloc, inner)?,
                        run,
                    },
                    at,
                ))
            }
            _ => Err(ReadError::Syntax),
        }
    }

    /// A pattern, and what closes the `(` at a place.
    fn read_inner(&self, tokens: &TokenTable<'_>, at: usize) -> Result<(Pat, usize), ReadError>
        requires within { at < length tokens.now }
        requires nests { Nests self.now.depth (F.pre self.now.sub) (F.post self.now.sub) }
        requires few { length tokens.now ≤ max_file_bytes }
        ensures { Gives (λ x. (view_pat x.0, from tokens.now x.1)) result (inner_pat (read_pat self.now.depth) (at + 1) (from tokens.now (at + 1))) }
    {
        let (inner, after) = self.sub(tokens, at + 1)?;
        self.read_closed(tokens, at, inner, after)
    }

    /// After the `(` at a place.
    #[tactic(auto, unfolding(token_reading::specs::PatReading::paren_pat), using(ml_trees::proofs::Variants::pat_views))]
    fn read_parenthesized(
        &self,
        tokens: &TokenTable<'_>,
        at: usize,
    ) -> Result<(Pat, usize), ReadError>
        requires within { at < length tokens.now }
        requires nests { Nests self.now.depth (F.pre self.now.sub) (F.post self.now.sub) }
        requires few { length tokens.now ≤ max_file_bytes }
        ensures { Gives (λ x. (view_pat x.0, from tokens.now x.1)) result (r.paren_pat (read_pat self.now.depth) self.now.depth (at + 1) (from tokens.now (at + 1))) }
    {
        if has_fixed(tokens, Fixed::RightParen, at + 1) {
            return Ok((Pat::Unit { at: number(at) }, at + 2));
        }
        match operator(self.alloc, tokens, at) {
            Ok((name, after)) => Ok((Pat::Value(name), after)),
            Err(ReadError::Memory) => Err(ReadError::Memory),
            Err(ReadError::Syntax) => self.read_inner(tokens, at),
        }
    }

    /// A `.` and a pattern in parentheses behind a path.
    #[inline(never)]
    fn read_opened(
        &self,
        tokens: &TokenTable<'_>,
        at: usize,
    ) -> Result<((u32, Pat), usize), ReadError>
        requires nests { Nests self.now.depth (F.pre self.now.sub) (F.post self.now.sub) }
        requires few { length tokens.now ≤ max_file_bytes }
        ensures { Gives (λ x. (x.0.0, view_pat x.0.1, from tokens.now x.1)) result (r.opened_part (read_pat self.now.depth) self.now.depth (from tokens.now at)) }
    {
        if !has_fixed(tokens, Fixed::Dot, at) {
            return Err(ReadError::Syntax);
        }
        if !has_fixed(tokens, Fixed::LeftParen, at + 1) {
            return Err(ReadError::Syntax);
        }
        let (inner, after) = self.sub(tokens, at + 2)?;
        let after = expect(tokens, Fixed::RightParen, after)?;
        Ok(((number(at + 1), inner), after))
    }

    /// The path that begins with the name at a place, and what is opened with it.
    #[tactic(auto, unfolding(token_reading::specs::PatReading::upper_pat), using(ml_trees::proofs::Variants::pat_views))]
    #[inline(never)]
    fn read_upper(&self, tokens: &TokenTable<'_>, at: usize) -> Result<(Pat, usize), ReadError>
        requires within { at < length tokens.now }
        requires nests { Nests self.now.depth (F.pre self.now.sub) (F.post self.now.sub) }
        requires few { length tokens.now ≤ max_file_bytes }
        ensures { Gives (λ x. (view_pat x.0, from tokens.now x.1)) result (r.upper_pat (read_pat self.now.depth) self.now.depth (name_at tokens.now at) (from tokens.now (at + 1))) }
    {
        let (path, at) = self.path(tokens, at)?;
        match self.read_opened(tokens, at) {
            Ok(((paren, inner), after)) => Ok((
                Pat::Opened {
                    path,
                    at: paren,
                    pat: boxed(self.alloc, inner)?,
                },
                after,
            )),
            Err(ReadError::Syntax) => Ok((Pat::Constr(path), at)),
            Err(ReadError::Memory) => Err(ReadError::Memory),
        }
    }

    /// The path that begins with the name at a place.
    #[inline(never)]
    fn path(&self, tokens: &TokenTable<'_>, at: usize) -> Result<(Path, usize), ReadError>
        requires within { at < length tokens.now }
        requires few { length tokens.now ≤ max_file_bytes }
        ensures { Gives (λ x. (view_path x.0, from tokens.now x.1)) result (Some (path_from (name_at tokens.now at) self.now.depth (from tokens.now (at + 1)))) }
    {
        let first = word(self.alloc, tokens, Class::Upper, at)?;
        let (mut words, after) = more_uppers(self.alloc, tokens, self.depth, at + 1)?;
        words.insert(0, first)?;
        Ok((Path { words }, after))
    }

    /// The next item of a list, behind its `;`.
    fn next_item(&self, tokens: &TokenTable<'_>, at: usize) -> Result<(Pat, usize), ReadError>
        requires nests { Nests self.now.depth (F.pre self.now.sub) (F.post self.now.sub) }
        requires few { length tokens.now ≤ max_file_bytes }
        ensures { Gives (λ x. (view_pat x.0, from tokens.now x.1)) result (r.next_pat (read_pat self.now.depth) self.now.depth key.Semicolon (read_pat self.now.depth) (from tokens.now at)) }
    {
        let at = expect(tokens, Fixed::Semicolon, at)?;
        self.sub(tokens, at)
    }

    /// Further items, as long as each can be read whole.
    #[inline(never)]
    fn more_items(&self, tokens: &TokenTable<'_>, at: usize) -> Result<(Vec<Pat>, usize), ReadError>
        requires nests { Nests self.now.depth (F.pre self.now.sub) (F.post self.now.sub) }
        requires few { length tokens.now ≤ max_file_bytes }
        ensures { Gives (λ x. (pats x.0.items, from tokens.now x.1)) result (Some (r.more_pats (read_pat self.now.depth) self.now.depth key.Semicolon (read_pat self.now.depth) (from tokens.now at))) }
    {
        let mut found = Vec::new(self.alloc);
        let mut at = at;
        for _turn in 0..self.depth {
            match self.next_item(tokens, at) {
                Ok((next, after)) => {
                    found.push(next)?;
                    at = after;
                }
                Err(ReadError::Syntax) => return Ok((fit(found), at)),
                Err(ReadError::Memory) => return Err(ReadError::Memory),
            }
        }
        Ok((fit(found), at))
    }

    /// After the `[` or `[|` at a place.
    #[tactic(auto, unfolding(token_reading::specs::PatReading::bracket_pat), using(ml_trees::proofs::Variants::pat_views))]
    #[inline(never)]
    fn read_bracketed(
        &self,
        tokens: &TokenTable<'_>,
        bracket: Bracket,
        at: usize,
    ) -> Result<(Pat, usize), ReadError>
        requires within { at < length tokens.now }
        requires nests { Nests self.now.depth (F.pre self.now.sub) (F.post self.now.sub) }
        requires few { length tokens.now ≤ max_file_bytes }
        ensures { Gives (λ x. (view_pat x.0, from tokens.now x.1)) result (r.bracket_pat (read_pat self.now.depth) self.now.depth (at + 1) bracket (from tokens.now (at + 1))) }
    {
        let close = find_closing(bracket);
        if has_fixed(tokens, close, at + 1) {
            return Ok((
                Pat::Empty {
                    at: number(at),
                    bracket,
                },
                at + 2,
            ));
        }
        let (first, after) = self.sub(tokens, at + 1)?;
        let (rest, after) = self.more_items(tokens, after)?;
        let (last, after) = last_semicolon(tokens, after);
        let after = expect(tokens, close, after)?;
        let first = boxed(self.alloc, first)?;
        Ok((
            Pat::List {
                at: number(at),
                bracket,
                first,
                rest,
                last,
            },
            after,
        ))
    }

    /// An `=` and a pattern.
    #[inline(never)]
    fn equals(&self, tokens: &TokenTable<'_>, at: usize) -> Result<((u32, Pat), usize), ReadError>
        requires nests { Nests self.now.depth (F.pre self.now.sub) (F.post self.now.sub) }
        requires few { length tokens.now ≤ max_file_bytes }
        ensures { Gives (λ x. (x.0.0, view_pat x.0.1, from tokens.now x.1)) result (r.equals_part (read_pat self.now.depth) self.now.depth (from tokens.now at)) }
    {
        let (equals, at) = expect_at(tokens, Fixed::Equals, at)?;
        let (pat, at) = self.sub(tokens, at)?;
        Ok(((equals, pat), at))
    }

    /// A field of a record.
    #[tactic(auto, unfolding(token_reading::specs::PatReading::field_pat), using(ml_trees::proofs::Variants::pat_field_views))]
    #[inline(never)]
    fn field(&self, tokens: &TokenTable<'_>, at: usize) -> Result<(PatField, usize), ReadError>
        requires nests { Nests self.now.depth (F.pre self.now.sub) (F.post self.now.sub) }
        requires few { length tokens.now ≤ max_file_bytes }
        ensures { Gives (λ x. (view_pat_field x.0, from tokens.now x.1)) result (r.field_pat (read_pat self.now.depth) self.now.depth (from tokens.now at)) }
    {
        let (path, at) = qualifiers(self.alloc, tokens, self.depth, at)?;
        let (label, at) = lower_word(self.alloc, tokens, at)?;
        let (run, at) = optional_type(self.alloc, tokens, at)?;
        match self.equals(tokens, at) {
            Ok(((equals, pat), after)) => Ok((
                PatField::Matched {
                    path,
                    label,
                    run,
                    equals,
                    pat,
                },
                after,
            )),
            Err(ReadError::Syntax) => Ok((PatField::Punned { path, label, run }, at)),
            Err(ReadError::Memory) => Err(ReadError::Memory),
        }
    }

    /// The next field, behind its `;`.
    fn next_field(&self, tokens: &TokenTable<'_>, at: usize) -> Result<(PatField, usize), ReadError>
        requires nests { Nests self.now.depth (F.pre self.now.sub) (F.post self.now.sub) }
        requires few { length tokens.now ≤ max_file_bytes }
        ensures { Gives (λ x. (view_pat_field x.0, from tokens.now x.1)) result (r.next_field (read_pat self.now.depth) self.now.depth (from tokens.now at)) }
    {
        let at = expect(tokens, Fixed::Semicolon, at)?;
        self.field(tokens, at)
    }

    /// Further fields, as long as each can be read whole.
    #[inline(never)]
    fn more_fields(
        &self,
        tokens: &TokenTable<'_>,
        at: usize,
    ) -> Result<(Vec<PatField>, usize), ReadError>
        requires nests { Nests self.now.depth (F.pre self.now.sub) (F.post self.now.sub) }
        requires few { length tokens.now ≤ max_file_bytes }
        ensures { Gives (λ x. (pat_fields x.0.items, from tokens.now x.1)) result (Some (many pure.no_pat_field pure.more_pat_field always (r.next_field (read_pat self.now.depth) self.now.depth) self.now.depth (from tokens.now at))) }
    {
        let mut found = Vec::new(self.alloc);
        let mut at = at;
        for _turn in 0..self.depth {
            match self.next_field(tokens, at) {
                Ok((next, after)) => {
                    found.push(next)?;
                    at = after;
                }
                Err(ReadError::Syntax) => return Ok((fit(found), at)),
                Err(ReadError::Memory) => return Err(ReadError::Memory),
            }
        }
        Ok((fit(found), at))
    }

    /// After the `{` at a place.
    #[tactic(auto, unfolding(token_reading::specs::PatReading::brace_pat), using(ml_trees::proofs::Variants::pat_views))]
    #[inline(never)]
    fn record(&self, tokens: &TokenTable<'_>, at: usize) -> Result<(Pat, usize), ReadError>
        requires within { at < length tokens.now }
        requires nests { Nests self.now.depth (F.pre self.now.sub) (F.post self.now.sub) }
        requires few { length tokens.now ≤ max_file_bytes }
        ensures { Gives (λ x. (view_pat x.0, from tokens.now x.1)) result (r.brace_pat (read_pat self.now.depth) self.now.depth (at + 1) (from tokens.now (at + 1))) }
    {
        let (first, after) = self.field(tokens, at + 1)?;
        let (rest, after) = self.more_fields(tokens, after)?;
        let (others, after) = open_end(tokens, after);
        let (last, after) = last_semicolon(tokens, after);
        let after = expect(tokens, Fixed::RightBrace, after)?;
        let first = boxed(self.alloc, first)?;
        Ok((
            Pat::Record {
                at: number(at),
                first,
                rest,
                open: others,
                last,
            },
            after,
        ))
    }

    /// A `-` or `-.` and a number.
    #[tactic(auto, using(ml_trees::proofs::Variants::pat_views))]
    #[inline(never)]
    fn read_negative(&self, tokens: &TokenTable<'_>, at: usize) -> Result<(Pat, usize), ReadError>
        requires within { at < length tokens.now }
        requires few { length tokens.now ≤ max_file_bytes }
        ensures { Gives (λ x. (view_pat x.0, from tokens.now x.1)) result (if is_minus (text_at tokens.now at) then r.negative (name_at tokens.now at) (from tokens.now (at + 1)) else None) }
    {
        if !is_minus(text(tokens, at)) {
            return Err(ReadError::Syntax);
        }
        match kind_at(tokens, at + 1) {
            Kind::Word(class) => {
                if !is_number(class) {
                    return Err(ReadError::Syntax);
                }
                let sign = word(self.alloc, tokens, Class::Infix, at)?;
                let number = word(self.alloc, tokens, class, at + 1)?;
                Ok((Pat::Negative { sign, number }, at + 2))
            }
            _ => Err(ReadError::Syntax),
        }
    }

    /// A character, or two with `..` between them.
    #[tactic(auto, using(ml_trees::proofs::Variants::pat_views))]
    #[inline(never)]
    fn character(&self, tokens: &TokenTable<'_>, at: usize) -> Result<(Pat, usize), ReadError>
        requires within { at < length tokens.now }
        requires few { length tokens.now ≤ max_file_bytes }
        ensures { Gives (λ x. (view_pat x.0, from tokens.now x.1)) result (Some (r.range_or (name_at tokens.now at) (from tokens.now (at + 1)))) }
    {
        let low = word(self.alloc, tokens, Class::Char, at)?;
        if !has_fixed(tokens, Fixed::DotDot, at + 1) {
            return Ok((Pat::Literal(low), at + 1));
        }
        match kind_at(tokens, at + 2) {
            Kind::Word(Class::Char) => {
                let high = word(self.alloc, tokens, Class::Char, at + 2)?;
                Ok((Pat::Range { low, high }, at + 3))
            }
            _ => Ok((Pat::Literal(low), at + 1)),
        }
    }

    /// The pattern that the word of a class at a place begins, other than the name of a module or constructor.
    #[tactic(auto, using(ml_trees::proofs::Variants::pat_views))]
    #[inline(never)]
    fn read_free(
        &self,
        tokens: &TokenTable<'_>,
        class: Class,
        at: usize,
    ) -> Result<(Pat, usize), ReadError>
        requires within { at < length tokens.now }
        requires few { length tokens.now ≤ max_file_bytes }
        ensures { Gives (λ x. (view_pat x.0, from tokens.now x.1)) result (r.free_pat class (name_at tokens.now at) (from tokens.now (at + 1))) }
    {
        match class {
            Class::Lower => {
                let name = word(self.alloc, tokens, Class::Lower, at)?;
                Ok((Pat::Value(ValueName::Lower(name)), at + 1))
            }
            Class::Tag => Ok((Pat::Tag(word(self.alloc, tokens, Class::Tag, at)?), at + 1)),
            Class::Char => self.character(tokens, at),
            Class::Infix => self.read_negative(tokens, at),
            class => {
                if is_literal(class) {
                    return Ok((Pat::Literal(word(self.alloc, tokens, class, at)?), at + 1));
                }
                Err(ReadError::Syntax)
            }
        }
    }

    /// A Simple pattern. The errors are `Syntax` and `Memory`.
    #[tactic(auto, unfolding(token_reading::specs::PatReading::simple_pat), using(ml_trees::proofs::Variants::pat_views))]
    pub fn read_simple(&self, tokens: &TokenTable<'_>, at: usize) -> Result<(Pat, usize), ReadError>
        requires nests { Nests self.now.depth (F.pre self.now.sub) (F.post self.now.sub) }
        requires few { length tokens.now ≤ max_file_bytes }
        ensures { Gives (λ x. (view_pat x.0, from tokens.now x.1)) result (r.simple_pat (read_pat self.now.depth) self.now.depth (from tokens.now at)) }
    {
        match kind_at(tokens, at) {
            Kind::Fixed(Fixed::Underscore) => Ok((Pat::Any { at: number(at) }, at + 1)),
            Kind::Fixed(Fixed::True) => Ok((
                Pat::Bool {
                    at: number(at),
                    value: true,
                },
                at + 1,
            )),
            Kind::Fixed(Fixed::False) => Ok((
                Pat::Bool {
                    at: number(at),
                    value: false,
                },
                at + 1,
            )),
            Kind::Fixed(Fixed::LeftParen) => self.read_parenthesized(tokens, at),
            Kind::Fixed(Fixed::LeftBracket) => self.read_bracketed(tokens, Bracket::List, at),
            Kind::Fixed(Fixed::LeftArray) => self.read_bracketed(tokens, Bracket::Array, at),
            Kind::Fixed(Fixed::LeftBrace) => self.record(tokens, at),
            Kind::Word(Class::Upper) => self.read_upper(tokens, at),
            Kind::Word(class) => self.read_free(tokens, class, at),
            _ => Err(ReadError::Syntax),
        }
    }

    /// What a pattern is applied to, if it is a constructor or a tag.
    #[tactic(auto, using(ml_trees::proofs::Variants::pat_views))]
    #[inline(never)]
    fn argument(
        &self,
        tokens: &TokenTable<'_>,
        head: Pat,
        at: usize,
    ) -> Result<(Pat, usize), ReadError>
        requires nests { Nests self.now.depth (F.pre self.now.sub) (F.post self.now.sub) }
        requires few { length tokens.now ≤ max_file_bytes }
        ensures { Gives (λ x. (view_pat x.0, from tokens.now x.1)) result (Some (with_argument self.now.depth (view_pat head) (from tokens.now at))) }
    {
        let mut head = head;
        match &mut head {
            Pat::Constr(path) => match self.read_simple(tokens, at) {
                Ok((argument, after)) => {
                    let path = take_path(self.alloc, path);
                    let argument = boxed(self.alloc, argument)?;
                    Ok((Pat::ConstrApply { path, argument }, after))
                }
                Err(ReadError::Syntax) => Ok((head, at)),
                Err(ReadError::Memory) => Err(ReadError::Memory),
            },
            Pat::Tag(tag) => match self.read_simple(tokens, at) {
                Ok((argument, after)) => {
                    let tag = take_word(tag);
                    let argument = boxed(self.alloc, argument)?;
                    Ok((Pat::TagApply { tag, argument }, after))
                }
                Err(ReadError::Syntax) => Ok((head, at)),
                Err(ReadError::Memory) => Err(ReadError::Memory),
            },
            _ => Ok((head, at)),
        }
    }

    /// A Simple, a `lazy`, or a constructor or tag with what it is applied to.
    #[tactic(auto, unfolding(token_reading::specs::PatReading::plain_pat), using(ml_trees::proofs::Variants::pat_views))]
    fn read_plain(&self, tokens: &TokenTable<'_>, at: usize) -> Result<(Pat, usize), ReadError>
        requires nests { Nests self.now.depth (F.pre self.now.sub) (F.post self.now.sub) }
        requires few { length tokens.now ≤ max_file_bytes }
        ensures { Gives (λ x. (view_pat x.0, from tokens.now x.1)) result (r.plain_pat (read_pat self.now.depth) self.now.depth (from tokens.now at)) }
    {
        match kind_at(tokens, at) {
            Kind::Fixed(Fixed::Lazy) => {
                let (pat, after) = self.read_simple(tokens, at + 1)?;
                let pat = boxed(self.alloc, pat)?;
                Ok((
                    Pat::Lazy {
                        at: number(at),
                        pat,
                    },
                    after,
                ))
            }
            _ => {
                let (head, after) = self.read_simple(tokens, at)?;
                self.argument(tokens, head, after)
            }
        }
    }

    /// The same, or behind an `exception`.
    #[tactic(auto, unfolding(token_reading::specs::PatReading::applied_pat), using(ml_trees::proofs::Variants::pat_views))]
    fn read_applied(&self, tokens: &TokenTable<'_>, at: usize) -> Result<(Pat, usize), ReadError>
        requires nests { Nests self.now.depth (F.pre self.now.sub) (F.post self.now.sub) }
        requires few { length tokens.now ≤ max_file_bytes }
        ensures { Gives (λ x. (view_pat x.0, from tokens.now x.1)) result (r.applied_pat (read_pat self.now.depth) self.now.depth (from tokens.now at)) }
    {
        match kind_at(tokens, at) {
            Kind::Fixed(Fixed::Exception) => {
                let (pat, after) = self.read_plain(tokens, at + 1)?;
                let pat = boxed(self.alloc, pat)?;
                Ok((
                    Pat::Exception {
                        at: number(at),
                        pat,
                    },
                    after,
                ))
            }
            _ => self.read_plain(tokens, at),
        }
    }

    /// The next part, behind its `::`.
    fn next_applied(&self, tokens: &TokenTable<'_>, at: usize) -> Result<(Pat, usize), ReadError>
        requires nests { Nests self.now.depth (F.pre self.now.sub) (F.post self.now.sub) }
        requires few { length tokens.now ≤ max_file_bytes }
        ensures { Gives (λ x. (view_pat x.0, from tokens.now x.1)) result (r.next_pat (read_pat self.now.depth) self.now.depth key.ColonColon (r.applied_pat (read_pat self.now.depth) self.now.depth) (from tokens.now at)) }
    {
        let at = expect(tokens, Fixed::ColonColon, at)?;
        self.read_applied(tokens, at)
    }

    /// Further parts, as long as each can be read whole.
    #[inline(never)]
    fn more_applied(
        &self,
        tokens: &TokenTable<'_>,
        at: usize,
    ) -> Result<(Vec<Pat>, usize), ReadError>
        requires nests { Nests self.now.depth (F.pre self.now.sub) (F.post self.now.sub) }
        requires few { length tokens.now ≤ max_file_bytes }
        ensures { Gives (λ x. (pats x.0.items, from tokens.now x.1)) result (Some (r.more_pats (read_pat self.now.depth) self.now.depth key.ColonColon (r.applied_pat (read_pat self.now.depth) self.now.depth) (from tokens.now at))) }
    {
        let mut found = Vec::new(self.alloc);
        let mut at = at;
        for _turn in 0..self.depth {
            match self.next_applied(tokens, at) {
                Ok((next, after)) => {
                    found.push(next)?;
                    at = after;
                }
                Err(ReadError::Syntax) => return Ok((fit(found), at)),
                Err(ReadError::Memory) => return Err(ReadError::Memory),
            }
        }
        Ok((fit(found), at))
    }

    /// Patterns between `::`.
    #[tactic(auto, unfolding(token_reading::specs::PatReading::cons_pat))]
    fn cons(&self, tokens: &TokenTable<'_>, at: usize) -> Result<(Pat, usize), ReadError>
        requires nests { Nests self.now.depth (F.pre self.now.sub) (F.post self.now.sub) }
        requires few { length tokens.now ≤ max_file_bytes }
        ensures { Gives (λ x. (view_pat x.0, from tokens.now x.1)) result (r.cons_pat (read_pat self.now.depth) self.now.depth (from tokens.now at)) }
    {
        let (first, at) = self.read_applied(tokens, at)?;
        let (rest, at) = self.more_applied(tokens, at)?;
        Ok((grown_cons(self.alloc, first, rest)?, at))
    }

    /// The next part, behind its `,`.
    fn next_cons(&self, tokens: &TokenTable<'_>, at: usize) -> Result<(Pat, usize), ReadError>
        requires nests { Nests self.now.depth (F.pre self.now.sub) (F.post self.now.sub) }
        requires few { length tokens.now ≤ max_file_bytes }
        ensures { Gives (λ x. (view_pat x.0, from tokens.now x.1)) result (r.next_pat (read_pat self.now.depth) self.now.depth key.Comma (r.cons_pat (read_pat self.now.depth) self.now.depth) (from tokens.now at)) }
    {
        let at = expect(tokens, Fixed::Comma, at)?;
        self.cons(tokens, at)
    }

    /// Further parts, as long as each can be read whole.
    #[inline(never)]
    fn more_cons(&self, tokens: &TokenTable<'_>, at: usize) -> Result<(Vec<Pat>, usize), ReadError>
        requires nests { Nests self.now.depth (F.pre self.now.sub) (F.post self.now.sub) }
        requires few { length tokens.now ≤ max_file_bytes }
        ensures { Gives (λ x. (pats x.0.items, from tokens.now x.1)) result (Some (r.more_pats (read_pat self.now.depth) self.now.depth key.Comma (r.cons_pat (read_pat self.now.depth) self.now.depth) (from tokens.now at))) }
    {
        let mut found = Vec::new(self.alloc);
        let mut at = at;
        for _turn in 0..self.depth {
            match self.next_cons(tokens, at) {
                Ok((next, after)) => {
                    found.push(next)?;
                    at = after;
                }
                Err(ReadError::Syntax) => return Ok((fit(found), at)),
                Err(ReadError::Memory) => return Err(ReadError::Memory),
            }
        }
        Ok((fit(found), at))
    }

    /// Patterns between `,`.
    #[tactic(auto, unfolding(token_reading::specs::PatReading::tuple_pat))]
    fn tuple(&self, tokens: &TokenTable<'_>, at: usize) -> Result<(Pat, usize), ReadError>
        requires nests { Nests self.now.depth (F.pre self.now.sub) (F.post self.now.sub) }
        requires few { length tokens.now ≤ max_file_bytes }
        ensures { Gives (λ x. (view_pat x.0, from tokens.now x.1)) result (r.tuple_pat (read_pat self.now.depth) self.now.depth (from tokens.now at)) }
    {
        let (first, at) = self.cons(tokens, at)?;
        let (rest, at) = self.more_cons(tokens, at)?;
        Ok((grown_tuple(self.alloc, first, rest)?, at))
    }

    /// The next part, behind its `|`.
    fn next_tuple(&self, tokens: &TokenTable<'_>, at: usize) -> Result<(Pat, usize), ReadError>
        requires nests { Nests self.now.depth (F.pre self.now.sub) (F.post self.now.sub) }
        requires few { length tokens.now ≤ max_file_bytes }
        ensures { Gives (λ x. (view_pat x.0, from tokens.now x.1)) result (r.next_pat (read_pat self.now.depth) self.now.depth key.Bar (r.tuple_pat (read_pat self.now.depth) self.now.depth) (from tokens.now at)) }
    {
        let at = expect(tokens, Fixed::Bar, at)?;
        self.tuple(tokens, at)
    }

    /// Further parts, as long as each can be read whole.
    #[inline(never)]
    fn more_tuples(
        &self,
        tokens: &TokenTable<'_>,
        at: usize,
    ) -> Result<(Vec<Pat>, usize), ReadError>
        requires nests { Nests self.now.depth (F.pre self.now.sub) (F.post self.now.sub) }
        requires few { length tokens.now ≤ max_file_bytes }
        ensures { Gives (λ x. (pats x.0.items, from tokens.now x.1)) result (Some (r.more_pats (read_pat self.now.depth) self.now.depth key.Bar (r.tuple_pat (read_pat self.now.depth) self.now.depth) (from tokens.now at))) }
    {
        let mut found = Vec::new(self.alloc);
        let mut at = at;
        for _turn in 0..self.depth {
            match self.next_tuple(tokens, at) {
                Ok((next, after)) => {
                    found.push(next)?;
                    at = after;
                }
                Err(ReadError::Syntax) => return Ok((fit(found), at)),
                Err(ReadError::Memory) => return Err(ReadError::Memory),
            }
        }
        Ok((fit(found), at))
    }

    /// Patterns between `|`.
    #[tactic(auto, unfolding(token_reading::specs::PatReading::or_pat))]
    fn read_or(&self, tokens: &TokenTable<'_>, at: usize) -> Result<(Pat, usize), ReadError>
        requires nests { Nests self.now.depth (F.pre self.now.sub) (F.post self.now.sub) }
        requires few { length tokens.now ≤ max_file_bytes }
        ensures { Gives (λ x. (view_pat x.0, from tokens.now x.1)) result (r.or_pat (read_pat self.now.depth) self.now.depth (from tokens.now at)) }
    {
        let (first, at) = self.tuple(tokens, at)?;
        let (rest, at) = self.more_tuples(tokens, at)?;
        Ok((grown_or(self.alloc, first, rest)?, at))
    }

    /// The next name, behind its `as`.
    fn next_name(&self, tokens: &TokenTable<'_>, at: usize) -> Result<(ValueName, usize), ReadError>
        requires few { length tokens.now ≤ max_file_bytes }
        ensures { Gives (λ x. (view_name x.0, from tokens.now x.1)) result (r.as_name (read_pat self.now.depth) self.now.depth (from tokens.now at)) }
    {
        let at = expect(tokens, Fixed::As, at)?;
        value_name(self.alloc, tokens, at)
    }

    /// Further names, as long as each can be read whole.
    #[inline(never)]
    fn more_names(
        &self,
        tokens: &TokenTable<'_>,
        at: usize,
    ) -> Result<(Vec<ValueName>, usize), ReadError>
        requires nests { Nests self.now.depth (F.pre self.now.sub) (F.post self.now.sub) }
        requires few { length tokens.now ≤ max_file_bytes }
        ensures { Gives (λ x. (view_names x.0.items, from tokens.now x.1)) result (Some (many [] ◌∷◌ always (r.as_name (read_pat self.now.depth) self.now.depth) self.now.depth (from tokens.now at))) }
    {
        let mut found = Vec::new(self.alloc);
        let mut at = at;
        for _turn in 0..self.depth {
            match self.next_name(tokens, at) {
                Ok((next, after)) => {
                    found.push(next)?;
                    at = after;
                }
                Err(ReadError::Syntax) => return Ok((fit(found), at)),
                Err(ReadError::Memory) => return Err(ReadError::Memory),
            }
        }
        Ok((fit(found), at))
    }

    /// A pattern and the names behind it.
    #[tactic(auto, unfolding(token_reading::specs::PatReading::as_pat))]
    fn alias(&self, tokens: &TokenTable<'_>, at: usize) -> Result<(Pat, usize), ReadError>
        requires nests { Nests self.now.depth (F.pre self.now.sub) (F.post self.now.sub) }
        requires few { length tokens.now ≤ max_file_bytes }
        ensures { Gives (λ x. (view_pat x.0, from tokens.now x.1)) result (r.as_pat (read_pat self.now.depth) self.now.depth (from tokens.now at)) }
    {
        let (first, at) = self.read_or(tokens, at)?;
        let (names, at) = self.more_names(tokens, at)?;
        Ok((grown_as(self.alloc, first, names)?, at))
    }
}

/// The word that closes a bracket.
fn find_closing(bracket: Bracket) -> Fixed
    ensures value { result ≡ closing bracket }
    ensures plain { is_placed result ≡ false }
{
    match bracket {
        Bracket::List => Fixed::RightBracket,
        Bracket::Array => Fixed::RightArray,
    }
}

/// A last `;` that may follow, and the place after it.
fn last_semicolon(tokens: &TokenTable<'_>, at: usize) -> (bool, usize)
    requires { length tokens.now ≤ max_file_bytes }
    ensures { (result.0, from tokens.now result.1) ≡ r.last_semicolon (from tokens.now at) }
{
    match kind_at(tokens, at) {
        Kind::Fixed(Fixed::Semicolon) => (true, at + 1),
        _ => (false, at),
    }
}

/// A `;` and a `_` that may follow: the number of the `_`, and the place after it.
fn open_end(tokens: &TokenTable<'_>, at: usize) -> (Option<u32>, usize)
    requires { length tokens.now ≤ max_file_bytes }
    ensures { (result.0, from tokens.now result.1) ≡ r.open_end (from tokens.now at) }
{
    match kind_at(tokens, at) {
        Kind::Fixed(Fixed::Semicolon) => match kind_at(tokens, at + 1) {
            Kind::Fixed(Fixed::Underscore) => (Some(number(at + 1)), at + 2),
            _ => (None, at),
        },
        _ => (None, at),
    }
}

fn is_number(class: Class) -> bool
    ensures { result ≡ is_number class }
{
    matches!(class, Class::Int | Class::Float)
}

fn is_literal(class: Class) -> bool
    ensures { result ≡ is_literal class }
{
    matches!(
        class,
        Class::Int | Class::Float | Class::Char | Class::Text | Class::Quoted
    )
}

/// The longest pattern from a place, nested at most so deep and over at most so many levels, and the place after it.
/// The errors are `Syntax` and `Memory`.
#[tactic(auto, unfolding(token_reading::specs::PatReading::read_pat))]
pub fn pattern(
    alloc: Global,
    tokens: &TokenTable<'_>,
    depth: usize,
    levels: usize,
    at: usize,
) -> Result<(Pat, usize), ReadError>
    requires { length tokens.now ≤ max_file_bytes }
    ensures { Gives (λ x. (view_pat x.0, from tokens.now x.1)) result (read_pat depth (from tokens.now at)) }
{
    if depth == 0 {
        return Err(ReadError::Syntax);
    }
    if levels == 0 {
        return Err(ReadError::Memory);
    }
    let grammar = Grammar {
        alloc,
        depth: depth - 1,
        levels: levels - 1,
        sub: pattern,
    };
    grammar.alias(tokens, at)
}

/// The Simple pattern at a place, as a parameter is one. The errors are `Syntax` and `Memory`.
pub fn simple_pattern(
    alloc: Global,
    tokens: &TokenTable<'_>,
    depth: usize,
    levels: usize,
    at: usize,
) -> Result<(Pat, usize), ReadError>
    requires { length tokens.now ≤ max_file_bytes }
    ensures { Gives (λ x. (view_pat x.0, from tokens.now x.1)) result (r.simple_pat (read_pat depth) depth (from tokens.now at)) }
{
    let grammar = Grammar {
        alloc,
        depth,
        levels,
        sub: pattern,
    };
    grammar.read_simple(tokens, at)
}
