//! Module expressions.

ghost use Rattle.std.specs.Prelude.{◌≤◌, ◌<◌, ◌+◌, length, Some};
ghost use Rattle.rotor_base.specs.Limits.{max_file_bytes};
ghost use Rattle.ml_trees.specs.View as v;
ghost use Rattle.token_reading.specs.Gives.{Gives, GivesAt};
ghost use Rattle.token_reading.specs.Tokens.{from};
ghost use Rattle.module_reading.specs.ModReading as r;
ghost use Rattle.module_reading.specs.ModReading.{read_mod, read_type};
ghost use Rattle.module_parts.specs.Reads.{ReadsModules, ReadsTypes};

use crate::readers::Readers;
use expr_parts::path;
use ml_trees::{Fixed, FunctorParam, ModArgument, ModExpr, ModType};
use rotor_base::Class;
use std::alloc::Global;
use token_reading::{Kind, ReadError, TokenTable, boxed, expect, fit, has_fixed, kind_at, number};

/// A module and what is given to it, if anything is.
#[tactic(auto, using(crate::proofs::Rows::applications, ml_trees::proofs::Variants::mod_expr_views))]
#[inline(never)]
fn make_application(
    alloc: Global,
    function: ModExpr,
    arguments: Vec<ModArgument>,
) -> Result<ModExpr, ReadError>
    ensures { Gives v.view_mod result (Some (r.grown_mod (v.view_mod function) (v.mod_arguments arguments.items))) }
{
    if arguments.len() == 0 {
        return Ok(function);
    }
    let function = boxed(alloc, function)?;
    Ok(ModExpr::Apply {
        function,
        arguments,
    })
}

impl<
    F: Copy
        + Fn(Global, &TokenTable<'_>, usize, usize, usize) -> Result<(ModExpr, usize), ReadError>,
    G: Copy
        + Fn(Global, &TokenTable<'_>, usize, usize, usize) -> Result<(ModType, usize), ReadError>,
> Readers<F, G> {
    /// After a module behind the `(` at `start`: a `)`, or `:`, a module type and a `)`.
    #[tactic(auto, using(ml_trees::proofs::Variants::mod_expr_views))]
    #[inline(never)]
    fn read_closed(
        &self,
        tokens: &TokenTable<'_>,
        start: usize,
        body: ModExpr,
        at: usize,
    ) -> Result<(ModExpr, usize), ReadError>
        requires modules { ReadsModules self.now.parts.depth (F.pre self.now.parts.modules) (F.post self.now.parts.modules) }
        requires types { ReadsTypes self.now.parts.depth (G.pre self.now.parts.types) (G.post self.now.parts.types) }
        requires few { length tokens.now ≤ max_file_bytes }
        requires begun { start < length tokens.now }
        ensures { Gives (λ x. (v.view_mod x.0, from tokens.now x.1)) result (r.mod_closed (read_mod self.now.parts.depth) (read_type self.now.parts.depth) self.now.parts.depth (start + 1) (v.view_mod body) (from tokens.now at)) }
    {
        match kind_at(tokens, at) {
            Kind::Fixed(Fixed::RightParen) => {
                let body = boxed(self.parts.alloc, body)?;
                let start = number(start);
                Ok((ModExpr::Paren { at: start, body }, at + 1))
            }
            Kind::Fixed(Fixed::Colon) => {
                let (signature, at) = self.parts.sub_type(tokens, at + 1)?;
                let at = expect(tokens, Fixed::RightParen, at)?;
                let body = boxed(self.parts.alloc, body)?;
                let signature = boxed(self.parts.alloc, signature)?;
                let sealed = ModExpr::Sealed {
                    at: number(start),
                    body,
                    signature,
                };
                Ok((sealed, at))
            }
            _ => Err(ReadError::Syntax),
        }
    }

    /// A path, a structure, or a module in parentheses.
    #[tactic(auto, unfolding(module_reading::specs::ModReading::simple_mod), using(ml_trees::proofs::Variants::mod_expr_views))]
    #[inline(never)]
    fn simple_mod(&self, tokens: &TokenTable<'_>, at: usize) -> Result<(ModExpr, usize), ReadError>
        requires modules { ReadsModules self.now.parts.depth (F.pre self.now.parts.modules) (F.post self.now.parts.modules) }
        requires types { ReadsTypes self.now.parts.depth (G.pre self.now.parts.types) (G.post self.now.parts.types) }
        requires few { length tokens.now ≤ max_file_bytes }
        ensures { Gives (λ x. (v.view_mod x.0, from tokens.now x.1)) result (r.simple_mod (read_mod self.now.parts.depth) (read_type self.now.parts.depth) self.now.parts.depth (from tokens.now at)) }
    {
        match kind_at(tokens, at) {
            Kind::Word(Class::Upper) => {
                let (path, after) = path(self.parts.alloc, tokens, self.parts.depth, at)?;
                Ok((ModExpr::ModPath(path), after))
            }
            Kind::Fixed(Fixed::Struct) => {
                let (items, after) = self.items(tokens, at + 1)?;
                let after = expect(tokens, Fixed::End, after)?;
                let at = number(at);
                Ok((ModExpr::Struct { at, items }, after))
            }
            Kind::Fixed(Fixed::LeftParen) => {
                let (body, after) = self.parts.sub_module(tokens, at + 1)?;
                self.read_closed(tokens, at, body, after)
            }
            _ => Err(ReadError::Syntax),
        }
    }

    /// After an argument behind the `(` at `start`: a `)`, or `:`, a module type and a `)`.
    #[tactic(auto, using(ml_trees::proofs::Variants::mod_argument_views))]
    #[inline(never)]
    fn argument_closed(
        &self,
        tokens: &TokenTable<'_>,
        start: usize,
        given: ModExpr,
        at: usize,
    ) -> Result<(ModArgument, usize), ReadError>
        requires modules { ReadsModules self.now.parts.depth (F.pre self.now.parts.modules) (F.post self.now.parts.modules) }
        requires types { ReadsTypes self.now.parts.depth (G.pre self.now.parts.types) (G.post self.now.parts.types) }
        requires few { length tokens.now ≤ max_file_bytes }
        requires begun { start < length tokens.now }
        ensures { GivesAt v.view_mod_argument tokens.now result (r.argument_closed (read_mod self.now.parts.depth) (read_type self.now.parts.depth) self.now.parts.depth (start + 1) (v.view_mod given) (from tokens.now at)) }
    {
        match kind_at(tokens, at) {
            Kind::Fixed(Fixed::RightParen) => {
                let open = number(start);
                Ok((
                    ModArgument::Given {
                        open,
                        module: given,
                    },
                    at + 1,
                ))
            }
            Kind::Fixed(Fixed::Colon) => {
                let (signature, at) = self.parts.sub_type(tokens, at + 1)?;
                let at = expect(tokens, Fixed::RightParen, at)?;
                let sealed = ModArgument::SealedModule {
                    open: number(start),
                    module: given,
                    signature,
                };
                Ok((sealed, at))
            }
            _ => Err(ReadError::Syntax),
        }
    }

    /// An argument of a functor.
    #[tactic(auto, unfolding(module_reading::specs::ModReading::mod_argument), using(ml_trees::proofs::Variants::mod_argument_views))]
    #[inline(never)]
    fn argument(
        &self,
        tokens: &TokenTable<'_>,
        at: usize,
    ) -> Result<(ModArgument, usize), ReadError>
        requires modules { ReadsModules self.now.parts.depth (F.pre self.now.parts.modules) (F.post self.now.parts.modules) }
        requires types { ReadsTypes self.now.parts.depth (G.pre self.now.parts.types) (G.post self.now.parts.types) }
        requires few { length tokens.now ≤ max_file_bytes }
        ensures { Gives (λ x. (v.view_mod_argument x.0, from tokens.now x.1)) result (r.mod_argument (read_mod self.now.parts.depth) (read_type self.now.parts.depth) self.now.parts.depth (from tokens.now at)) }
    {
        if !has_fixed(tokens, Fixed::LeftParen, at) {
            return Err(ReadError::Syntax);
        }
        if has_fixed(tokens, Fixed::RightParen, at + 1) {
            return Ok((ModArgument::Nothing { open: number(at) }, at + 2));
        }
        let (module, after) = self.parts.sub_module(tokens, at + 1)?;
        self.argument_closed(tokens, at, module, after)
    }

    /// Arguments, as long as each can be read whole.
    #[inline(never)]
    fn arguments(
        &self,
        tokens: &TokenTable<'_>,
        at: usize,
    ) -> Result<(Vec<ModArgument>, usize), ReadError>
        requires modules { ReadsModules self.now.parts.depth (F.pre self.now.parts.modules) (F.post self.now.parts.modules) }
        requires types { ReadsTypes self.now.parts.depth (G.pre self.now.parts.types) (G.post self.now.parts.types) }
        requires few { length tokens.now ≤ max_file_bytes }
        ensures { Gives (λ x. (v.mod_arguments x.0.items, from tokens.now x.1)) result (Some (r.mod_arguments (read_mod self.now.parts.depth) (read_type self.now.parts.depth) self.now.parts.depth (from tokens.now at))) }
    {
        let mut found = Vec::new(self.parts.alloc);
        let mut at = at;
        for _turn in 0..self.parts.depth {
            match self.argument(tokens, at) {
                Ok((next, after)) => {
                    found.push(next)?;
                    at = after;
                }
                Err(ReadError::Syntax) => return Ok((fit(found), at)),
                Err(ReadError::Memory) => return Err(ReadError::Memory),
            }
        }
        Ok((fit(found), at))
    }

    /// A module and the arguments behind it.
    #[tactic(auto, unfolding(module_reading::specs::ModReading::mod_apply))]
    #[inline(never)]
    pub(crate) fn application(
        &self,
        tokens: &TokenTable<'_>,
        at: usize,
    ) -> Result<(ModExpr, usize), ReadError>
        requires modules { ReadsModules self.now.parts.depth (F.pre self.now.parts.modules) (F.post self.now.parts.modules) }
        requires types { ReadsTypes self.now.parts.depth (G.pre self.now.parts.types) (G.post self.now.parts.types) }
        requires few { length tokens.now ≤ max_file_bytes }
        ensures { Gives (λ x. (v.view_mod x.0, from tokens.now x.1)) result (r.mod_apply (read_mod self.now.parts.depth) (read_type self.now.parts.depth) self.now.parts.depth (from tokens.now at)) }
    {
        let (function, at) = self.simple_mod(tokens, at)?;
        let (arguments, at) = self.arguments(tokens, at)?;
        Ok((make_application(self.parts.alloc, function, arguments)?, at))
    }

    /// After the parameters of the `functor` at `start`, of which there is one at least: `->` and a module.
    #[tactic(auto, using(crate::proofs::Rows::functors, ml_trees::proofs::Variants::mod_expr_views))]
    #[inline(never)]
    fn functor_end(
        &self,
        tokens: &TokenTable<'_>,
        start: usize,
        params: Vec<FunctorParam>,
        at: usize,
    ) -> Result<(ModExpr, usize), ReadError>
        requires modules { ReadsModules self.now.parts.depth (F.pre self.now.parts.modules) (F.post self.now.parts.modules) }
        requires types { ReadsTypes self.now.parts.depth (G.pre self.now.parts.types) (G.post self.now.parts.types) }
        requires few { length tokens.now ≤ max_file_bytes }
        requires begun { start < length tokens.now }
        ensures { GivesAt v.view_mod tokens.now result (r.functor_end (read_mod self.now.parts.depth) (read_type self.now.parts.depth) self.now.parts.depth (start + 1) (v.functor_params params.items) (from tokens.now at)) }
    {
        if params.len() == 0 {
            return Err(ReadError::Syntax);
        }
        let at = expect(tokens, Fixed::Arrow, at)?;
        let (body, at) = self.parts.sub_module(tokens, at)?;
        let body = boxed(self.parts.alloc, body)?;
        let start = number(start);
        Ok((
            ModExpr::Functor {
                at: start,
                params,
                body,
            },
            at,
        ))
    }

    /// A module expression.
    #[tactic(auto, unfolding(module_reading::specs::ModReading::mod_expr))]
    #[inline(never)]
    pub(crate) fn module(
        &self,
        tokens: &TokenTable<'_>,
        at: usize,
    ) -> Result<(ModExpr, usize), ReadError>
        requires modules { ReadsModules self.now.parts.depth (F.pre self.now.parts.modules) (F.post self.now.parts.modules) }
        requires types { ReadsTypes self.now.parts.depth (G.pre self.now.parts.types) (G.post self.now.parts.types) }
        requires few { length tokens.now ≤ max_file_bytes }
        ensures { Gives (λ x. (v.view_mod x.0, from tokens.now x.1)) result (r.mod_expr (read_mod self.now.parts.depth) (read_type self.now.parts.depth) self.now.parts.depth (from tokens.now at)) }
    {
        match kind_at(tokens, at) {
            Kind::Fixed(Fixed::Functor) => {
                let (params, after) = self.parts.functor_params(tokens, at + 1)?;
                self.functor_end(tokens, at, params, after)
            }
            _ => self.application(tokens, at),
        }
    }
}
