//! Items of structures.

ghost use Rattle.std.specs.Prelude.{◌≡◌, ◌≤◌, ◌<◌, ◌+◌, ◌∷◌, true, length, Some};
ghost use Rattle.rotor_base.specs.Limits.{max_file_bytes};
ghost use Rattle.ml_trees.specs.declared.fixed.Fixed.TheVariants as key;
ghost use Rattle.ml_trees.specs.Tok.{placed};
ghost use Rattle.ml_trees.specs.WellFormed.{is_separator as separates};
ghost use Rattle.ml_trees.specs.View as v;
ghost use Rattle.token_reading.specs.Gives.{Gives};
ghost use Rattle.token_reading.specs.Tokens.{from};
ghost use Rattle.module_reading.specs.ModReading as r;
ghost use Rattle.module_reading.specs.ModReading.{read_mod, read_type};
ghost use Rattle.parse_module.specs.Parts as p;
ghost use Rattle.module_parts.specs.Reads.{ReadsModules, ReadsTypes};

use crate::readers::Readers;
use crate::values::{sequence, value_item};
use expr_parts::upper_word;
use ml_trees::{Fixed, Item, ModExpr, ModType, Open};
use module_parts::{external, module_name, read_opened};
use std::alloc::Global;
use token_reading::{
    Kind, ReadError, TokenTable, declaration_run, expect_at, fit, has_fixed, kind_at, number,
};

/// Whether an item is `;;`.
#[tactic(auto, unfolding(ml_trees::specs::View::view_mod))]
fn is_separator(item: &Item) -> bool
    ensures { result ≡ separates (v.view_item item.now) }
{
    match item {
        Item::Separator => true,
        _ => false,
    }
}

impl<
    F: Copy
        + Fn(Global, &TokenTable<'_>, usize, usize, usize) -> Result<(ModExpr, usize), ReadError>,
    G: Copy
        + Fn(Global, &TokenTable<'_>, usize, usize, usize) -> Result<(ModType, usize), ReadError>,
> Readers<F, G> {
    /// After the `module` at `start`: a name, parameters, a module type or none, `=` and a module.
    #[tactic(auto, using(ml_trees::proofs::Variants::item_views))]
    #[inline(never)]
    fn module_rest(
        &self,
        tokens: &TokenTable<'_>,
        start: usize,
        at: usize,
    ) -> Result<(Item, usize), ReadError>
        requires modules { ReadsModules self.now.parts.depth (F.pre self.now.parts.modules) (F.post self.now.parts.modules) }
        requires types { ReadsTypes self.now.parts.depth (G.pre self.now.parts.types) (G.post self.now.parts.types) }
        requires few { length tokens.now ≤ max_file_bytes }
        requires begun { start < length tokens.now }
        ensures { Gives (λ x. (v.view_item x.0, from tokens.now x.1)) result (r.module_rest (read_mod self.now.parts.depth) (read_type self.now.parts.depth) self.now.parts.depth (start + 1) (from tokens.now at)) }
    {
        let (name, at) = module_name(self.parts.alloc, tokens, at)?;
        let (params, at) = self.parts.functor_params(tokens, at)?;
        let (signature, at) = self.parts.signature(tokens, at)?;
        let (equals, at) = expect_at(tokens, Fixed::Equals, at)?;
        let (body, at) = self.parts.sub_module(tokens, at)?;
        let item = Item::Module {
            at: number(start),
            name,
            params,
            signature,
            equals,
            body,
        };
        Ok((item, at))
    }

    /// After the `module type` at `start`: a name, `=` and a module type.
    #[tactic(auto, using(ml_trees::proofs::Variants::item_views))]
    #[inline(never)]
    fn module_type_item(
        &self,
        tokens: &TokenTable<'_>,
        start: usize,
        at: usize,
    ) -> Result<(Item, usize), ReadError>
        requires modules { ReadsModules self.now.parts.depth (F.pre self.now.parts.modules) (F.post self.now.parts.modules) }
        requires types { ReadsTypes self.now.parts.depth (G.pre self.now.parts.types) (G.post self.now.parts.types) }
        requires few { length tokens.now ≤ max_file_bytes }
        requires begun { start < length tokens.now }
        ensures { Gives (λ x. (v.view_item x.0, from tokens.now x.1)) result (p.module_type_item self.now.parts.depth (start + 1) (from tokens.now at)) }
    {
        let (name, at) = upper_word(self.parts.alloc, tokens, at)?;
        let (equals, at) = expect_at(tokens, Fixed::Equals, at)?;
        let (signature, at) = self.parts.sub_type(tokens, at)?;
        let item = Item::ModuleType {
            at: number(start),
            name,
            equals,
            signature,
        };
        Ok((item, at))
    }

    /// The item that the `module` at a place begins.
    #[tactic(auto, using(crate::proofs::Rows::module_items))]
    #[inline(never)]
    fn module_item(&self, tokens: &TokenTable<'_>, at: usize) -> Result<(Item, usize), ReadError>
        requires modules { ReadsModules self.now.parts.depth (F.pre self.now.parts.modules) (F.post self.now.parts.modules) }
        requires types { ReadsTypes self.now.parts.depth (G.pre self.now.parts.types) (G.post self.now.parts.types) }
        requires few { length tokens.now ≤ max_file_bytes }
        requires within { at < length tokens.now }
        ensures { Gives (λ x. (v.view_item x.0, from tokens.now x.1)) result (r.plain_item (read_mod self.now.parts.depth) (read_type self.now.parts.depth) self.now.parts.depth (placed key.Module (at + 1) ∷ from tokens.now (at + 1))) }
    {
        if has_fixed(tokens, Fixed::Type, at + 1) {
            return self.module_type_item(tokens, at, at + 2);
        }
        self.module_rest(tokens, at, at + 1)
    }

    /// An item that is no expression.
    #[tactic(auto, unfolding(module_reading::specs::ModReading::plain_item), using(ml_trees::proofs::Variants::item_views))]
    #[inline(never)]
    fn plain_item(&self, tokens: &TokenTable<'_>, at: usize) -> Result<(Item, usize), ReadError>
        requires modules { ReadsModules self.now.parts.depth (F.pre self.now.parts.modules) (F.post self.now.parts.modules) }
        requires types { ReadsTypes self.now.parts.depth (G.pre self.now.parts.types) (G.post self.now.parts.types) }
        requires few { length tokens.now ≤ max_file_bytes }
        ensures { Gives (λ x. (v.view_item x.0, from tokens.now x.1)) result (r.plain_item (read_mod self.now.parts.depth) (read_type self.now.parts.depth) self.now.parts.depth (from tokens.now at)) }
    {
        match kind_at(tokens, at) {
            Kind::Fixed(Fixed::Let) => value_item(
                self.parts.alloc,
                tokens,
                self.parts.depth,
                self.parts.levels,
                at,
            ),
            Kind::Fixed(Fixed::DoubleSemicolon) => Ok((Item::Separator, at + 1)),
            Kind::Fixed(Fixed::External) => {
                let (external, after) = external(
                    self.parts.alloc,
                    tokens,
                    self.parts.depth,
                    at + 1,
                )?;
                Ok((Item::External(external), after))
            }
            Kind::Fixed(Fixed::Type) => {
                let (run, after) = declaration_run(self.parts.alloc, tokens, at + 1)?;
                Ok((Item::Type(run), after))
            }
            Kind::Fixed(Fixed::Exception) => {
                let (run, after) = declaration_run(self.parts.alloc, tokens, at + 1)?;
                let at = number(at);
                Ok((Item::Exception { at, run }, after))
            }
            Kind::Fixed(Fixed::Module) => self.module_item(tokens, at),
            Kind::Fixed(Fixed::Open) => {
                let ((bang, path), after) = read_opened(
                    self.parts.alloc,
                    tokens,
                    self.parts.depth,
                    at + 1,
                )?;
                let at = number(at);
                Ok((Item::Open(Open { at, bang, path }), after))
            }
            Kind::Fixed(Fixed::Include) => {
                let (module, after) = self.parts.sub_module(tokens, at + 1)?;
                let at = number(at);
                Ok((Item::Include { at, module }, after))
            }
            _ => Err(ReadError::Syntax),
        }
    }

    /// An item. If it is `fresh`, it may be an expression, which is tried first.
    #[tactic(auto, unfolding(module_reading::specs::ModReading::item_of), using(ml_trees::proofs::Variants::item_views))]
    #[inline(never)]
    fn item(
        &self,
        tokens: &TokenTable<'_>,
        fresh: bool,
        at: usize,
    ) -> Result<(Item, usize), ReadError>
        requires modules { ReadsModules self.now.parts.depth (F.pre self.now.parts.modules) (F.post self.now.parts.modules) }
        requires types { ReadsTypes self.now.parts.depth (G.pre self.now.parts.types) (G.post self.now.parts.types) }
        requires few { length tokens.now ≤ max_file_bytes }
        ensures { Gives (λ x. (v.view_item x.0, from tokens.now x.1)) result (r.item_of (read_mod self.now.parts.depth) (read_type self.now.parts.depth) self.now.parts.depth fresh (from tokens.now at)) }
    {
        if !fresh {
            return self.plain_item(tokens, at);
        }
        match sequence(
            self.parts.alloc,
            tokens,
            self.parts.depth,
            self.parts.levels,
            at,
        ) {
            Ok((tree, after)) => Ok((Item::Expression(tree), after)),
            Err(ReadError::Syntax) => self.plain_item(tokens, at),
            Err(ReadError::Memory) => Err(ReadError::Memory),
        }
    }

    /// Items, as long as each can be read whole. The first and one behind `;;` may be an expression.
    #[inline(never)]
    pub(crate) fn items(
        &self,
        tokens: &TokenTable<'_>,
        at: usize,
    ) -> Result<(Vec<Item>, usize), ReadError>
        requires modules { ReadsModules self.now.parts.depth (F.pre self.now.parts.modules) (F.post self.now.parts.modules) }
        requires types { ReadsTypes self.now.parts.depth (G.pre self.now.parts.types) (G.post self.now.parts.types) }
        requires few { length tokens.now ≤ max_file_bytes }
        ensures { Gives (λ x. (v.items x.0.items, from tokens.now x.1)) result (Some (r.items_of (read_mod self.now.parts.depth) (read_type self.now.parts.depth) self.now.parts.depth self.now.parts.depth true (from tokens.now at))) }
    {
        let mut found = Vec::new(self.parts.alloc);
        let mut at = at;
        let mut fresh = true;
        for _turn in 0..self.parts.depth {
            match self.item(tokens, fresh, at) {
                Ok((next, after)) => {
                    fresh = is_separator(&next);
                    found.push(next)?;
                    at = after;
                }
                Err(ReadError::Syntax) => return Ok((fit(found), at)),
                Err(ReadError::Memory) => return Err(ReadError::Memory),
            }
        }
        Ok((fit(found), at))
    }
}
