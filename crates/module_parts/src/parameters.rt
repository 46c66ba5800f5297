//! Parameters of functors.

ghost use Rattle.std.specs.Prelude.{◌≤◌, ◌<◌, ◌+◌, length, Some};
ghost use Rattle.rotor_base.specs.Limits.{max_file_bytes};
ghost use Rattle.ml_trees.specs.View as v;
ghost use Rattle.token_reading.specs.Gives.{Gives};
ghost use Rattle.token_reading.specs.Tokens.{from};
ghost use Rattle.module_reading.specs.ModReading as r;
ghost use Rattle.module_reading.specs.ModReading.{read_mod, read_type};
ghost use Rattle.module_parts.specs.Reads.{ReadsModules, ReadsTypes};

use crate::modules::Modules;
use crate::names::module_name;
use ml_trees::{Fixed, FunctorParam, ModExpr, ModType};
use std::alloc::Global;
use token_reading::{Kind, ReadError, TokenTable, boxed, expect, fit, has_fixed, kind_at, number};

impl<
    F: Copy
        + Fn(Global, &TokenTable<'_>, usize, usize, usize) -> Result<(ModExpr, usize), ReadError>,
    G: Copy
        + Fn(Global, &TokenTable<'_>, usize, usize, usize) -> Result<(ModType, usize), ReadError>,
> Modules<F, G> {
    /// After the `(` at `start`: a name, its module type and a `)`.
    #[tactic(auto, using(ml_trees::proofs::Variants::functor_param_views))]
    #[inline(never)]
    fn named_param(
        &self,
        tokens: &TokenTable<'_>,
        start: usize,
        at: usize,
    ) -> Result<(FunctorParam, usize), ReadError>
        requires modules { ReadsModules self.now.depth (F.pre self.now.modules) (F.post self.now.modules) }
        requires types { ReadsTypes self.now.depth (G.pre self.now.types) (G.post self.now.types) }
        requires few { length tokens.now ≤ max_file_bytes }
        requires begun { start < length tokens.now }
        ensures { Gives (λ x. (v.view_functor_param x.0, from tokens.now x.1)) result (r.named_param (read_mod self.now.depth) (read_type self.now.depth) self.now.depth (start + 1) (from tokens.now at)) }
    {
        let (name, at) = module_name(self.alloc, tokens, at)?;
        let at = expect(tokens, Fixed::Colon, at)?;
        let (signature, at) = self.sub_type(tokens, at)?;
        let at = expect(tokens, Fixed::RightParen, at)?;
        let open = number(start);
        Ok((
            FunctorParam::Named {
                open,
                name,
                signature,
            },
            at,
        ))
    }

    /// A parameter. The errors are `Syntax` and `Memory`.
    #[tactic(auto, unfolding(module_reading::specs::ModReading::functor_param), using(ml_trees::proofs::Variants::functor_param_views))]
    #[inline(never)]
    pub fn functor_param(
        &self,
        tokens: &TokenTable<'_>,
        at: usize,
    ) -> Result<(FunctorParam, usize), ReadError>
        requires modules { ReadsModules self.now.depth (F.pre self.now.modules) (F.post self.now.modules) }
        requires types { ReadsTypes self.now.depth (G.pre self.now.types) (G.post self.now.types) }
        requires few { length tokens.now ≤ max_file_bytes }
        ensures { Gives (λ x. (v.view_functor_param x.0, from tokens.now x.1)) result (r.functor_param (read_mod self.now.depth) (read_type self.now.depth) self.now.depth (from tokens.now at)) }
    {
        if !has_fixed(tokens, Fixed::LeftParen, at) {
            return Err(ReadError::Syntax);
        }
        if has_fixed(tokens, Fixed::RightParen, at + 1) {
            return Ok((FunctorParam::NoParam { open: number(at) }, at + 2));
        }
        self.named_param(tokens, at, at + 1)
    }

    /// Parameters, as long as each can be read whole. `Memory` is the only error.
    #[inline(never)]
    pub fn functor_params(
        &self,
        tokens: &TokenTable<'_>,
        at: usize,
    ) -> Result<(Vec<FunctorParam>, usize), ReadError>
        requires modules { ReadsModules self.now.depth (F.pre self.now.modules) (F.post self.now.modules) }
        requires types { ReadsTypes self.now.depth (G.pre self.now.types) (G.post self.now.types) }
        requires few { length tokens.now ≤ max_file_bytes }
        ensures { Gives (λ x. (v.functor_params x.0.items, from tokens.now x.1)) result (Some (r.functor_params (read_mod self.now.depth) (read_type self.now.depth) self.now.depth (from tokens.now at))) }
    {
        let mut found = Vec::new(self.alloc);
        let mut at = at;
        for _turn in 0..self.depth {
            match self.functor_param(tokens, at) {
                Ok((next, after)) => {
                    found.push(next)?;
                    at = after;
                }
                Err(ReadError::Syntax) => return Ok((fit(found), at)),
                Err(ReadError::Memory) => return Err(ReadError::Memory),
            }
        }
        Ok((fit(found), at))
    }

    /// A `:` and a module type, or none. The errors are `Syntax` and `Memory`.
    #[inline(never)]
    pub fn signature(
        &self,
        tokens: &TokenTable<'_>,
        at: usize,
    ) -> Result<(Option<Box<ModType>>, usize), ReadError>
        requires modules { ReadsModules self.now.depth (F.pre self.now.modules) (F.post self.now.modules) }
        requires types { ReadsTypes self.now.depth (G.pre self.now.types) (G.post self.now.types) }
        requires few { length tokens.now ≤ max_file_bytes }
        ensures { Gives (λ x. (v.signature x.0, from tokens.now x.1)) result (r.signature_of (read_mod self.now.depth) (read_type self.now.depth) self.now.depth (from tokens.now at)) }
    {
        match kind_at(tokens, at) {
            Kind::Fixed(Fixed::Colon) => {
                let (signature, at) = self.sub_type(tokens, at + 1)?;
                Ok((Some(boxed(self.alloc, signature)?), at))
            }
            _ => Ok((None, at)),
        }
    }
}
