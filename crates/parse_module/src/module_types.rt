//! Module types.

ghost use Rattle.std.specs.Prelude.{◌≤◌, ◌<◌, ◌+◌, ◌∷◌, length, map, Some};
ghost use Rattle.rotor_base.specs.Limits.{max_file_bytes};
ghost use Rattle.ml_trees.specs.declared.fixed.Fixed.TheVariants as key;
ghost use Rattle.ml_trees.specs.Tok.{placed};
ghost use Rattle.ml_trees.specs.View as v;
ghost use Rattle.token_reading.specs.Gives.{Gives};
ghost use Rattle.token_reading.specs.Tokens.{from};
ghost use Rattle.module_reading.specs.ModReading as r;
ghost use Rattle.module_reading.specs.ModReading.{read_mod, read_type};
ghost use Rattle.parse_module.specs.Parts as p;
ghost use Rattle.module_parts.specs.Reads.{ReadsModules, ReadsTypes};
ghost use Rattle.module_parts.specs.Arrows.{Steps};

use crate::readers::Readers;
use expr_parts::path;
use ml_trees::{Fixed, FunctorParam, ModExpr, ModType, WithClause};
use module_parts::{Domain, Step, with_clauses};
use rotor_base::Class;
use std::alloc::Global;
use token_reading::{Kind, ReadError, TokenTable, boxed, expect, has_fixed, kind_at, number};

impl<
    F: Copy
        + Fn(Global, &TokenTable<'_>, usize, usize, usize) -> Result<(ModExpr, usize), ReadError>,
    G: Copy
        + Fn(Global, &TokenTable<'_>, usize, usize, usize) -> Result<(ModType, usize), ReadError>,
> Readers<F, G> {
    /// After the `module type` at `start`: `of` and a module.
    #[tactic(auto, using(ml_trees::proofs::Variants::mod_type_views))]
    #[inline(never)]
    fn type_of(
        &self,
        tokens: &TokenTable<'_>,
        start: usize,
        at: usize,
    ) -> Result<(ModType, usize), ReadError>
        requires modules { ReadsModules self.now.parts.depth (F.pre self.now.parts.modules) (F.post self.now.parts.modules) }
        requires types { ReadsTypes self.now.parts.depth (G.pre self.now.parts.types) (G.post self.now.parts.types) }
        requires few { length tokens.now ≤ max_file_bytes }
        requires begun { start < length tokens.now }
        ensures { Gives (λ x. (v.view_mod_type x.0, from tokens.now x.1)) result (p.type_of self.now.parts.depth (start + 1) (from tokens.now at)) }
    {
        let at = expect(tokens, Fixed::Of, at)?;
        let (module, at) = self.application(tokens, at)?;
        let module = boxed(self.parts.alloc, module)?;
        let start = number(start);
        Ok((ModType::TypeOf { at: start, module }, at))
    }

    /// After the `module` at a place: `type of` and a module.
    #[tactic(auto, using(crate::proofs::Rows::module_types_of))]
    #[inline(never)]
    fn module_type_of(
        &self,
        tokens: &TokenTable<'_>,
        at: usize,
    ) -> Result<(ModType, usize), ReadError>
        requires modules { ReadsModules self.now.parts.depth (F.pre self.now.parts.modules) (F.post self.now.parts.modules) }
        requires types { ReadsTypes self.now.parts.depth (G.pre self.now.parts.types) (G.post self.now.parts.types) }
        requires few { length tokens.now ≤ max_file_bytes }
        requires within { at < length tokens.now }
        ensures { Gives (λ x. (v.view_mod_type x.0, from tokens.now x.1)) result (r.simple_type (read_mod self.now.parts.depth) (read_type self.now.parts.depth) self.now.parts.depth (placed key.Module (at + 1) ∷ from tokens.now (at + 1))) }
    {
        if !has_fixed(tokens, Fixed::Type, at + 1) {
            return Err(ReadError::Syntax);
        }
        self.type_of(tokens, at, at + 2)
    }

    /// A path, a signature, `module type of`, or a module type in parentheses.
    #[tactic(auto, unfolding(module_reading::specs::ModReading::simple_type), using(ml_trees::proofs::Variants::mod_type_views))]
    #[inline(never)]
    fn simple_type(&self, tokens: &TokenTable<'_>, at: usize) -> Result<(ModType, usize), ReadError>
        requires modules { ReadsModules self.now.parts.depth (F.pre self.now.parts.modules) (F.post self.now.parts.modules) }
        requires types { ReadsTypes self.now.parts.depth (G.pre self.now.parts.types) (G.post self.now.parts.types) }
        requires few { length tokens.now ≤ max_file_bytes }
        ensures { Gives (λ x. (v.view_mod_type x.0, from tokens.now x.1)) result (r.simple_type (read_mod self.now.parts.depth) (read_type self.now.parts.depth) self.now.parts.depth (from tokens.now at)) }
    {
        match kind_at(tokens, at) {
            Kind::Word(Class::Upper) => {
                let (path, after) = path(self.parts.alloc, tokens, self.parts.depth, at)?;
                Ok((ModType::TypePath(path), after))
            }
            Kind::Fixed(Fixed::Sig) => {
                let (items, after) = self.parts.sig_items(tokens, at + 1)?;
                let after = expect(tokens, Fixed::End, after)?;
                let at = number(at);
                Ok((ModType::Sig { at, items }, after))
            }
            Kind::Fixed(Fixed::Module) => self.module_type_of(tokens, at),
            Kind::Fixed(Fixed::LeftParen) => {
                let (body, after) = self.parts.sub_type(tokens, at + 1)?;
                let after = expect(tokens, Fixed::RightParen, after)?;
                let body = boxed(self.parts.alloc, body)?;
                let at = number(at);
                Ok((ModType::TypeParen { at, body }, after))
            }
            _ => Err(ReadError::Syntax),
        }
    }

    /// Each `with` behind a module type, which ends at `after`, or, if there is none, an arrow or nothing.
    #[tactic(auto, using(crate::proofs::Rows::withs, ml_trees::proofs::Variants::mod_type_views))]
    #[inline(never)]
    fn with_or(
        &self,
        tokens: &TokenTable<'_>,
        body: ModType,
        clauses: Vec<WithClause>,
        at: usize,
        after: usize,
    ) -> Result<(Step, usize), ReadError>
        requires few { length tokens.now ≤ max_file_bytes }
        ensures { Steps self.now.parts.depth tokens.now result (Some (p.with_or self.now.parts.depth (v.view_mod_type body) (from tokens.now at) (map v.view_with clauses.items, from tokens.now after))) }
    {
        if clauses.len() > 0 {
            let body = boxed(self.parts.alloc, body)?;
            return Ok((Step::Whole(ModType::With { body, clauses }), after));
        }
        if has_fixed(tokens, Fixed::Arrow, at) {
            return Ok((Step::Before(Domain::Plain { body, end: at }), at + 1));
        }
        Ok((Step::Whole(body), at))
    }

    /// A module type that begins with no parameter that has a name, up to its first arrow.
    #[inline(never)]
    fn with_type(&self, tokens: &TokenTable<'_>, at: usize) -> Result<(Step, usize), ReadError>
        requires modules { ReadsModules self.now.parts.depth (F.pre self.now.parts.modules) (F.post self.now.parts.modules) }
        requires types { ReadsTypes self.now.parts.depth (G.pre self.now.parts.types) (G.post self.now.parts.types) }
        requires few { length tokens.now ≤ max_file_bytes }
        ensures { Steps self.now.parts.depth tokens.now result (r.with_type (read_mod self.now.parts.depth) (read_type self.now.parts.depth) self.now.parts.depth (from tokens.now at)) }
    {
        let (body, at) = self.simple_type(tokens, at)?;
        let (clauses, after) = with_clauses(self.parts.alloc, tokens, self.parts.depth, at)?;
        self.with_or(tokens, body, clauses, at, after)
    }

    /// After the parameters of the `functor` at `start`, of which there is one at least: the arrow.
    #[tactic(auto, using(crate::proofs::Rows::functor_types))]
    #[inline(never)]
    fn functor_step(
        &self,
        tokens: &TokenTable<'_>,
        start: usize,
        params: Vec<FunctorParam>,
        at: usize,
    ) -> Result<(Step, usize), ReadError>
        requires few { length tokens.now ≤ max_file_bytes }
        requires begun { start < length tokens.now }
        ensures { Steps self.now.parts.depth tokens.now result (r.functor_type_end (read_mod self.now.parts.depth) (read_type self.now.parts.depth) self.now.parts.depth (start + 1) (v.functor_params params.items) (from tokens.now at)) }
    {
        if params.len() == 0 {
            return Err(ReadError::Syntax);
        }
        let after = expect(tokens, Fixed::Arrow, at)?;
        let at = number(start);
        Ok((Step::Before(Domain::Functor { at, params }), after))
    }

    /// A module type up to its first arrow.
    #[tactic(auto, using(crate::proofs::Rows::module_types))]
    #[inline(never)]
    pub(crate) fn step(
        &self,
        tokens: &TokenTable<'_>,
        at: usize,
    ) -> Result<(Step, usize), ReadError>
        requires modules { ReadsModules self.now.parts.depth (F.pre self.now.parts.modules) (F.post self.now.parts.modules) }
        requires types { ReadsTypes self.now.parts.depth (G.pre self.now.parts.types) (G.post self.now.parts.types) }
        requires few { length tokens.now ≤ max_file_bytes }
        ensures { Steps self.now.parts.depth tokens.now result (r.mod_type (read_mod self.now.parts.depth) (read_type self.now.parts.depth) self.now.parts.depth (from tokens.now at)) }
    {
        if has_fixed(tokens, Fixed::Functor, at) {
            let (params, after) = self.parts.functor_params(tokens, at + 1)?;
            return self.functor_step(tokens, at, params, after);
        }
        match self.parts.functor_param(tokens, at) {
            Ok((param, after)) => {
                let after = expect(tokens, Fixed::Arrow, after)?;
                Ok((Step::Before(Domain::Param(param)), after))
            }
            Err(ReadError::Syntax) => self.with_type(tokens, at),
            Err(ReadError::Memory) => Err(ReadError::Memory),
        }
    }
}
