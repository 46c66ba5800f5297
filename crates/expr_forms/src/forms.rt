//! `let` and `fun`.

ghost use Rattle.std.specs.Prelude.{◌≤◌, ◌<◌, ◌+◌, length};
ghost use Rattle.rotor_base.specs.Limits.{max_file_bytes};
ghost use Rattle.ml_trees.specs.View.{view, view_word, params};
ghost use Rattle.token_reading.specs.Gives.{Gives};
ghost use Rattle.token_reading.specs.Tokens.{from};
ghost use Rattle.expr_reading.specs.ExprReading as r;
ghost use Rattle.expr_reading.specs.ExprReading.{read_expr};
ghost use Rattle.expr_parts.specs.Reads.{Nests};
ghost use Rattle.expr_forms.specs.Forms.{module_in, module_named};

use crate::readers::Forms;
use expr_parts::{bang, local_module, path, upper_word};
use expr_reading::Wanted;
use ml_trees::{Expr, Fixed, Param, Word};
use std::alloc::Global;
use token_reading::{Kind, ReadError, TokenTable, boxed, expect, kind_at, number};

impl<
    F: Copy
        + Fn(
            Global,
            &TokenTable<'_>,
            usize,
            usize,
            Wanted,
            usize,
        ) -> Result<(Box<Expr>, usize), ReadError>,
> Forms<F> {
    /// The bindings and the body of the `let` at `start`. The errors are `Syntax` and `Memory`.
    #[tactic(auto, unfolding(expr_reading::specs::ExprReading::let_values), using(ml_trees::proofs::Variants::expr_views))]
    #[inline(never)]
    pub fn let_values(
        &self,
        tokens: &TokenTable<'_>,
        start: usize,
        recursive: bool,
        at: usize,
    ) -> Result<(Box<Expr>, usize), ReadError>
        requires nests { Nests self.now.grammar.depth (F.pre self.now.grammar.sub) (F.post self.now.grammar.sub) }
        requires few { length tokens.now ≤ max_file_bytes }
        requires begun { start < length tokens.now }
        ensures { Gives (λ x. (view x.0.value, from tokens.now x.1)) result (r.let_values (read_expr self.now.grammar.depth) self.now.grammar.depth (start + 1) recursive (from tokens.now at)) }
    {
        let ((first, rest), at) = self.all_bindings(tokens, at)?;
        let at = expect(tokens, Fixed::In, at)?;
        let (body, at) = self.grammar.sub(tokens, Wanted::Sequence, at)?;
        let start = number(start);
        let whole = Expr::Let {
            at: start,
            recursive,
            first,
            rest,
            body,
        };
        Ok((boxed(self.grammar.alloc, whole)?, at))
    }

    /// After the `let open` at `start`. The errors are `Syntax` and `Memory`.
    #[tactic(auto, unfolding(expr_reading::specs::ExprReading::let_open), using(ml_trees::proofs::Variants::expr_views))]
    #[inline(never)]
    pub fn let_open(
        &self,
        tokens: &TokenTable<'_>,
        start: usize,
        at: usize,
    ) -> Result<(Box<Expr>, usize), ReadError>
        requires nests { Nests self.now.grammar.depth (F.pre self.now.grammar.sub) (F.post self.now.grammar.sub) }
        requires few { length tokens.now ≤ max_file_bytes }
        requires begun { start + 1 < length tokens.now }
        ensures { Gives (λ x. (view x.0.value, from tokens.now x.1)) result (r.let_open (read_expr self.now.grammar.depth) self.now.grammar.depth (start + 1) (start + 2) (from tokens.now at)) }
    {
        let (bang, at) = bang(self.grammar.alloc, tokens, at)?;
        let (path, at) = path(self.grammar.alloc, tokens, self.grammar.depth, at)?;
        let at = expect(tokens, Fixed::In, at)?;
        let (body, at) = self.grammar.sub(tokens, Wanted::Sequence, at)?;
        Ok((
            boxed(
                self.grammar.alloc,
                Expr::LetOpen {
                    at: number(start),
                    open: number(start + 1),
                    bang,
                    path,
                    body,
                },
            )?,
            at,
        ))
    }

    /// After the `=` behind the name of a module that is bound at `start`.
    #[tactic(auto, using(ml_trees::proofs::Variants::expr_views))]
    #[inline(never)]
    fn module_in(
        &self,
        tokens: &TokenTable<'_>,
        start: usize,
        name: Word,
        equals: u32,
        at: usize,
    ) -> Result<(Box<Expr>, usize), ReadError>
        requires nests { Nests self.now.grammar.depth (F.pre self.now.grammar.sub) (F.post self.now.grammar.sub) }
        requires few { length tokens.now ≤ max_file_bytes }
        requires begun { start + 1 < length tokens.now }
        ensures { Gives (λ x. (view x.0.value, from tokens.now x.1)) result (module_in self.now.grammar.depth (start + 1) (start + 2) (view_word name) equals (from tokens.now at)) }
    {
        let (value, at) = local_module(
            self.grammar.alloc,
            tokens,
            self.grammar.depth,
            self.grammar.levels,
            at,
        )?;
        let at = expect(tokens, Fixed::In, at)?;
        let (body, at) = self.grammar.sub(tokens, Wanted::Sequence, at)?;
        let module = number(start + 1);
        let start = number(start);
        let whole = Expr::LetModule {
            at: start,
            module,
            name,
            equals,
            value,
            body,
        };
        Ok((boxed(self.grammar.alloc, whole)?, at))
    }

    /// After the name of a module that is bound at `start`.
    #[inline(never)]
    fn module_named(
        &self,
        tokens: &TokenTable<'_>,
        start: usize,
        name: Word,
        at: usize,
    ) -> Result<(Box<Expr>, usize), ReadError>
        requires nests { Nests self.now.grammar.depth (F.pre self.now.grammar.sub) (F.post self.now.grammar.sub) }
        requires few { length tokens.now ≤ max_file_bytes }
        requires begun { start + 1 < length tokens.now }
        ensures { Gives (λ x. (view x.0.value, from tokens.now x.1)) result (module_named self.now.grammar.depth (start + 1) (start + 2) (view_word name) (from tokens.now at)) }
    {
        match kind_at(tokens, at) {
            Kind::Fixed(Fixed::Equals) => self.module_in(tokens, start, name, number(at), at + 1),
            _ => Err(ReadError::Syntax),
        }
    }

    /// After the `let module` at `start`.
    #[tactic(auto, using(crate::proofs::Lists::module_by))]
    #[inline(never)]
    fn let_module(
        &self,
        tokens: &TokenTable<'_>,
        start: usize,
        at: usize,
    ) -> Result<(Box<Expr>, usize), ReadError>
        requires nests { Nests self.now.grammar.depth (F.pre self.now.grammar.sub) (F.post self.now.grammar.sub) }
        requires few { length tokens.now ≤ max_file_bytes }
        requires begun { start + 1 < length tokens.now }
        ensures { Gives (λ x. (view x.0.value, from tokens.now x.1)) result (r.let_module (read_expr self.now.grammar.depth) self.now.grammar.depth (start + 1) (start + 2) (from tokens.now at)) }
    {
        let (name, at) = upper_word(self.grammar.alloc, tokens, at)?;
        self.module_named(tokens, start, name, at)
    }

    /// After the `let` at a place. The errors are `Syntax` and `Memory`.
    #[tactic(auto, unfolding(expr_reading::specs::ExprReading::let_expr))]
    #[inline(never)]
    pub fn let_expr(
        &self,
        tokens: &TokenTable<'_>,
        at: usize,
    ) -> Result<(Box<Expr>, usize), ReadError>
        requires nests { Nests self.now.grammar.depth (F.pre self.now.grammar.sub) (F.post self.now.grammar.sub) }
        requires few { length tokens.now ≤ max_file_bytes }
        requires within { at < length tokens.now }
        ensures { Gives (λ x. (view x.0.value, from tokens.now x.1)) result (r.let_expr (read_expr self.now.grammar.depth) self.now.grammar.depth (at + 1) (from tokens.now (at + 1))) }
    {
        match kind_at(tokens, at + 1) {
            Kind::Fixed(Fixed::Open) => self.let_open(tokens, at, at + 2),
            Kind::Fixed(Fixed::Module) => self.let_module(tokens, at, at + 2),
            Kind::Fixed(Fixed::Rec) => self.let_values(tokens, at, true, at + 2),
            _ => self.let_values(tokens, at, false, at + 1),
        }
    }

    /// After the parameters of the `fun` at `start`.
    #[tactic(auto, using(crate::proofs::Lists::functions, ml_trees::proofs::Variants::expr_views))]
    #[inline(never)]
    fn fun_end(
        &self,
        tokens: &TokenTable<'_>,
        start: usize,
        given: Vec<Param>,
        at: usize,
    ) -> Result<(Box<Expr>, usize), ReadError>
        requires nests { Nests self.now.grammar.depth (F.pre self.now.grammar.sub) (F.post self.now.grammar.sub) }
        requires few { length tokens.now ≤ max_file_bytes }
        requires begun { start < length tokens.now }
        ensures { Gives (λ x. (view x.0.value, from tokens.now x.1)) result (r.fun_end (read_expr self.now.grammar.depth) self.now.grammar.depth (start + 1) (params given.items) (from tokens.now at)) }
    {
        if given.len() == 0 {
            return Err(ReadError::Syntax);
        }
        let at = expect(tokens, Fixed::Arrow, at)?;
        let (body, at) = self.grammar.sub(tokens, Wanted::Sequence, at)?;
        let start = number(start);
        let whole = Expr::Fun {
            at: start,
            params: given,
            body,
        };
        Ok((boxed(self.grammar.alloc, whole)?, at))
    }

    /// After the `fun` at a place. The errors are `Syntax` and `Memory`.
    #[tactic(auto, unfolding(expr_reading::specs::ExprReading::fun_expr))]
    #[inline(never)]
    pub fn fun_expr(
        &self,
        tokens: &TokenTable<'_>,
        at: usize,
    ) -> Result<(Box<Expr>, usize), ReadError>
        requires nests { Nests self.now.grammar.depth (F.pre self.now.grammar.sub) (F.post self.now.grammar.sub) }
        requires few { length tokens.now ≤ max_file_bytes }
        requires within { at < length tokens.now }
        ensures { Gives (λ x. (view x.0.value, from tokens.now x.1)) result (r.fun_expr (read_expr self.now.grammar.depth) self.now.grammar.depth (at + 1) (from tokens.now (at + 1))) }
    {
        let (given, after) = self.more_params(tokens, at + 1)?;
        self.fun_end(tokens, at, given, after)
    }
}
