//! Items of signatures.

ghost use Rattle.std.specs.Prelude.{◌≡◌, ◌≤◌, ◌<◌, ◌+◌, ◌∷◌, length, Some};
ghost use Rattle.rotor_base.specs.Limits.{max_file_bytes};
ghost use Rattle.ml_trees.specs.declared.fixed.Fixed.TheVariants as key;
ghost use Rattle.ml_trees.specs.Tok.{placed};
ghost use Rattle.ml_trees.specs.View as v;
ghost use Rattle.token_reading.specs.Gives.{Gives};
ghost use Rattle.token_reading.specs.Tokens.{from};
ghost use Rattle.module_reading.specs.ModReading as r;
ghost use Rattle.module_reading.specs.ModReading.{read_mod, read_type};
ghost use Rattle.module_parts.specs.Parts as p;
ghost use Rattle.module_parts.specs.Reads.{ReadsModules, ReadsTypes};

use crate::modules::Modules;
use crate::names::{external, module_name, read_opened};
use expr_parts::{path, upper_word};
use ml_trees::{Fixed, ModExpr, ModType, Open, SigItem};
use rotor_base::Class;
use std::alloc::Global;
use token_reading::{
    Kind, ReadError, TokenTable, declaration_run, expect, expect_at, fit, has_fixed, kind_at,
    number, type_run, value_name,
};

/// After the `module` at `start`: a name, `=` and the path of a module.
#[tactic(auto, using(ml_trees::proofs::Variants::sig_item_views))]
#[inline(never)]
fn alias(
    alloc: Global,
    tokens: &TokenTable<'_>,
    depth: usize,
    start: usize,
    at: usize,
) -> Result<(SigItem, usize), ReadError>
    requires few { length tokens.now ≤ max_file_bytes }
    requires begun { start < length tokens.now }
    ensures { Gives (λ x. (v.view_sig_item x.0, from tokens.now x.1)) result (p.alias_sig depth (start + 1) (from tokens.now at)) }
{
    let (name, at) = upper_word(alloc, tokens, at)?;
    let (equals, at) = expect_at(tokens, Fixed::Equals, at)?;
    let (path, at) = path(alloc, tokens, depth, at)?;
    let item = SigItem::Alias {
        at: number(start),
        name,
        equals,
        path,
    };
    Ok((item, at))
}

/// Whether a name of class Upper and a `=` are at a place.
fn is_named(tokens: &TokenTable<'_>, at: usize) -> bool
    requires { length tokens.now ≤ max_file_bytes }
    ensures { result ≡ p.names_module (from tokens.now at) }
{
    match kind_at(tokens, at) {
        Kind::Word(Class::Upper) => match kind_at(tokens, at + 1) {
            Kind::Fixed(Fixed::Equals) => true,
            _ => false,
        },
        _ => false,
    }
}

impl<
    F: Copy
        + Fn(Global, &TokenTable<'_>, usize, usize, usize) -> Result<(ModExpr, usize), ReadError>,
    G: Copy
        + Fn(Global, &TokenTable<'_>, usize, usize, usize) -> Result<(ModType, usize), ReadError>,
> Modules<F, G> {
    /// After `val`: a name and its type.
    #[tactic(auto, using(ml_trees::proofs::Variants::sig_item_views))]
    #[inline(never)]
    fn val_rest(&self, tokens: &TokenTable<'_>, at: usize) -> Result<(SigItem, usize), ReadError>
        requires few { length tokens.now ≤ max_file_bytes }
        ensures { Gives (λ x. (v.view_sig_item x.0, from tokens.now x.1)) result (r.val_rest (read_mod self.now.depth) (read_type self.now.depth) self.now.depth (from tokens.now at)) }
    {
        let (name, at) = value_name(self.alloc, tokens, at)?;
        let at = expect(tokens, Fixed::Colon, at)?;
        let (run, at) = type_run(self.alloc, tokens, at)?;
        Ok((SigItem::Val { name, run }, at))
    }

    /// After the `module` at `start`: a name, parameters and a module type.
    #[tactic(auto, using(ml_trees::proofs::Variants::sig_item_views))]
    #[inline(never)]
    fn module_sig_rest(
        &self,
        tokens: &TokenTable<'_>,
        start: usize,
        at: usize,
    ) -> Result<(SigItem, usize), ReadError>
        requires modules { ReadsModules self.now.depth (F.pre self.now.modules) (F.post self.now.modules) }
        requires types { ReadsTypes self.now.depth (G.pre self.now.types) (G.post self.now.types) }
        requires few { length tokens.now ≤ max_file_bytes }
        requires begun { start < length tokens.now }
        ensures { Gives (λ x. (v.view_sig_item x.0, from tokens.now x.1)) result (r.module_sig_rest (read_mod self.now.depth) (read_type self.now.depth) self.now.depth (start + 1) (from tokens.now at)) }
    {
        let (name, at) = module_name(self.alloc, tokens, at)?;
        let (params, at) = self.functor_params(tokens, at)?;
        let at = expect(tokens, Fixed::Colon, at)?;
        let (signature, at) = self.sub_type(tokens, at)?;
        let item = SigItem::SigModule {
            at: number(start),
            name,
            params,
            signature,
        };
        Ok((item, at))
    }

    /// After the `module type` at `start`: a name, `=` and a module type.
    #[tactic(auto, using(ml_trees::proofs::Variants::sig_item_views))]
    #[inline(never)]
    fn module_type_sig(
        &self,
        tokens: &TokenTable<'_>,
        start: usize,
        at: usize,
    ) -> Result<(SigItem, usize), ReadError>
        requires modules { ReadsModules self.now.depth (F.pre self.now.modules) (F.post self.now.modules) }
        requires types { ReadsTypes self.now.depth (G.pre self.now.types) (G.post self.now.types) }
        requires few { length tokens.now ≤ max_file_bytes }
        requires begun { start < length tokens.now }
        ensures { Gives (λ x. (v.view_sig_item x.0, from tokens.now x.1)) result (p.module_type_sig self.now.depth (start + 1) (from tokens.now at)) }
    {
        let (name, at) = upper_word(self.alloc, tokens, at)?;
        let (equals, at) = expect_at(tokens, Fixed::Equals, at)?;
        let (signature, at) = self.sub_type(tokens, at)?;
        let item = SigItem::SigModuleType {
            at: number(start),
            name,
            equals,
            signature,
        };
        Ok((item, at))
    }

    /// The item that the `module` at a place begins.
    #[tactic(auto, using(crate::proofs::Rows::module_sigs))]
    #[inline(never)]
    fn module_sig(&self, tokens: &TokenTable<'_>, at: usize) -> Result<(SigItem, usize), ReadError>
        requires modules { ReadsModules self.now.depth (F.pre self.now.modules) (F.post self.now.modules) }
        requires types { ReadsTypes self.now.depth (G.pre self.now.types) (G.post self.now.types) }
        requires few { length tokens.now ≤ max_file_bytes }
        requires within { at < length tokens.now }
        ensures { Gives (λ x. (v.view_sig_item x.0, from tokens.now x.1)) result (r.sig_item (read_mod self.now.depth) (read_type self.now.depth) self.now.depth (placed key.Module (at + 1) ∷ from tokens.now (at + 1))) }
    {
        if has_fixed(tokens, Fixed::Type, at + 1) {
            return self.module_type_sig(tokens, at, at + 2);
        }
        if is_named(tokens, at + 1) {
            return alias(self.alloc, tokens, self.depth, at, at + 1);
        }
        self.module_sig_rest(tokens, at, at + 1)
    }

    /// An item.
    #[tactic(auto, unfolding(module_reading::specs::ModReading::sig_item), using(ml_trees::proofs::Variants::sig_item_views))]
    #[inline(never)]
    fn sig_item(&self, tokens: &TokenTable<'_>, at: usize) -> Result<(SigItem, usize), ReadError>
        requires modules { ReadsModules self.now.depth (F.pre self.now.modules) (F.post self.now.modules) }
        requires types { ReadsTypes self.now.depth (G.pre self.now.types) (G.post self.now.types) }
        requires few { length tokens.now ≤ max_file_bytes }
        ensures { Gives (λ x. (v.view_sig_item x.0, from tokens.now x.1)) result (r.sig_item (read_mod self.now.depth) (read_type self.now.depth) self.now.depth (from tokens.now at)) }
    {
        match kind_at(tokens, at) {
            Kind::Fixed(Fixed::DoubleSemicolon) => Ok((SigItem::SigSeparator, at + 1)),
            Kind::Fixed(Fixed::Val) => self.val_rest(tokens, at + 1),
            Kind::Fixed(Fixed::External) => {
                let (external, after) = external(self.alloc, tokens, self.depth, at + 1)?;
                Ok((SigItem::SigExternal(external), after))
            }
            Kind::Fixed(Fixed::Type) => {
                let (run, after) = declaration_run(self.alloc, tokens, at + 1)?;
                Ok((SigItem::SigType(run), after))
            }
            Kind::Fixed(Fixed::Exception) => {
                let (run, after) = declaration_run(self.alloc, tokens, at + 1)?;
                let at = number(at);
                Ok((SigItem::SigException { at, run }, after))
            }
            Kind::Fixed(Fixed::Module) => self.module_sig(tokens, at),
            Kind::Fixed(Fixed::Open) => {
                let ((bang, path), after) = read_opened(self.alloc, tokens, self.depth, at + 1)?;
                let at = number(at);
                Ok((SigItem::SigOpen(Open { at, bang, path }), after))
            }
            Kind::Fixed(Fixed::Include) => {
                let (signature, after) = self.sub_type(tokens, at + 1)?;
                let at = number(at);
                Ok((SigItem::SigInclude { at, signature }, after))
            }
            _ => Err(ReadError::Syntax),
        }
    }

    /// Items, as long as each can be read whole. `Memory` is the only error.
    #[inline(never)]
    pub fn sig_items(
        &self,
        tokens: &TokenTable<'_>,
        at: usize,
    ) -> Result<(Vec<SigItem>, usize), ReadError>
        requires modules { ReadsModules self.now.depth (F.pre self.now.modules) (F.post self.now.modules) }
        requires types { ReadsTypes self.now.depth (G.pre self.now.types) (G.post self.now.types) }
        requires few { length tokens.now ≤ max_file_bytes }
        ensures { Gives (λ x. (v.sig_items x.0.items, from tokens.now x.1)) result (Some (r.sig_items (read_mod self.now.depth) (read_type self.now.depth) self.now.depth (from tokens.now at))) }
    {
        let mut found = Vec::new(self.alloc);
        let mut at = at;
        for _turn in 0..self.depth {
            match self.sig_item(tokens, at) {
                Ok((next, after)) => {
                    found.push(next)?;
                    at = after;
                }
                Err(ReadError::Syntax) => return Ok((fit(found), at)),
                Err(ReadError::Memory) => return Err(ReadError::Memory),
            }
        }
        Ok((fit(found), at))
    }
}
