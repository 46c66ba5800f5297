//! Functors, signatures of modules, and paths of module types.

ghost use Rattle.std.specs.Prelude.{◌≡◌, ◌++◌, ◌∷◌, [], suc, IfOk, OnOk, option_copied};
ghost use Rattle.ml_trees.specs.View.{view_words, view_functor_param, view_mod_type};
ghost use Rattle.shape_core.specs.Shape.{Struct, Opaque, or_value, type_in};
ghost use Rattle.shape_core.specs.Node.{entries_of};
ghost use Rattle.binding_model.specs.Scopes.{here, texts, type_under};
ghost use Rattle.binding_model.specs.Steps.{WeighedSite};
ghost use Rattle.binding_model.specs.Taken.{HasTaken, HasStopped, taken, Going};
ghost use Rattle.binding_model.specs.Walk.{type_start as start, param_start as start_of_param};
ghost use Rattle.module_entries.specs.Given.{functor_to, functors_to, given_in, seal_steps, seal_shape, site_steps};

use crate::entries::named_module;
use binding_model::Found;
use ml_trees::{FunctorParam, ModType, Word};
use name_resolve::{end_weighed_site, match_target, path_in, start_of};
use rotor_base::{Memory, Place};
use shape_core::{
    FactError, Scope, Shared, SharedEntry, make_functor, make_opaque, make_unitary, mty_in, mty_of,
};
use std::alloc::Global;

/// A functor with one parameter. `Memory` is the only error.
pub fn functor_of(alloc: Global, given: Option<Shared>, body: Shared) -> Result<Shared, Memory>
    ensures { IfOk result (λ shape. shape ≡ functor_to given body) }
{
    match given {
        Some(param) => make_functor(alloc, param, body),
        None => make_unitary(alloc, body),
    }
}

/// A functor with these parameters. `Memory` is the only error.
#[tactic(auto, using(crate::proofs::Parameters::functors_last))]
pub fn functor_from(
    alloc: Global,
    given: Vec<Option<Shared>>,
    body: Shared,
) -> Result<Shared, Memory>
    ensures { IfOk result (λ shape. shape ≡ functors_to given.items body) }
{
    let mut given = given;
    let mut shape = body;
    while let Some(param) = given.pop() {
        shape = functor_of(alloc, param, shape)?;
    }
    Ok(shape)
}

/// What a parameter of a functor brings to the scope. `Memory` is the only error.
#[tactic(auto, using(ml_trees::proofs::Variants::functor_param_views))]
pub fn param_entries(
    alloc: Global,
    part: &FunctorParam,
    given: &Option<Shared>,
) -> Result<Vec<SharedEntry>, Memory>
    ensures { IfOk result (λ v. entries_of v.items ≡ given_in (view_functor_param part.now) given.now) }
{
    match part {
        FunctorParam::Named { name, .. } => match given {
            Some(shape) => named_module(alloc, name, shape.clone()?),
            None => Ok(Vec::new(alloc)),
        },
        FunctorParam::NoParam { .. } => Ok(Vec::new(alloc)),
    }
}

/// Ends the site of a parameter `()`, whose `(` is `paren`: its shape is Opaque. The errors are `Heavy`, at this site,
/// and `Memory`.
pub fn end_empty_param(
    alloc: Global,
    found: &mut Found,
    file: u32,
    paren: u32,
) -> Result<(), FactError>
    ensures taken { HasTaken result found.old found.new (WeighedSite (here file (suc paren)) Opaque) }
    ensures heavy { HasStopped result found.old (WeighedSite (here file (suc paren)) Opaque) }
{
    let shape = make_opaque(alloc)?;
    match paren.checked_add(1) {
        Some(token) => end_weighed_site(found, Place { file, token }, &shape),
        None => Err(FactError::Memory),
    }
}

/// Matches a module with its signature, if there is one, and returns the shape that the module then has. `Memory` is
/// the only error.
fn seal(
    alloc: Global,
    found: &mut Found,
    source: Shared,
    target: Option<Shared>,
) -> Result<Shared, Memory>
    ensures taken { OnOk result (taken (Going found.old) (seal_steps source target) ≡ Going found.new) }
    ensures shape { IfOk result (λ shape. shape ≡ seal_shape source target) }
{
    match target {
        Some(target) => {
            match_target(alloc, found, &source, &target)?;
            Ok(target)
        }
        None => Ok(source),
    }
}

/// Seals a module, makes the functor with its parameters, and ends the site of its item. The errors are `Heavy`, at
/// this site, and `Memory`.
#[tactic(auto, using(binding_model::proofs::Takings::heavy_stays))]
pub fn module_site(
    alloc: Global,
    found: &mut Found,
    at: Place,
    given: Vec<Option<Shared>>,
    source: Shared,
    target: Option<Shared>,
) -> Result<Shared, FactError>
    ensures taken { HasTaken result found.old found.new (site_steps at given.items source target) }
    ensures heavy { HasStopped result found.old (site_steps at given.items source target) }
    ensures shape { IfOk result (λ shape. shape ≡ functors_to given.items (seal_shape source target)) }
{
    let shape = seal(alloc, found, source, target)?;
    let shape = functor_from(alloc, given, shape)?;
    end_weighed_site(found, at, &shape)?;
    Ok(shape)
}

/// The module type that a path names: Opaque if it names none. `Memory` is the only error.
pub fn type_at(alloc: Global, path: &[Word], scope: &Scope) -> Result<Shared, Memory>
    ensures { IfOk result (λ shape. shape ≡ type_under (Struct (entries_of scope.now)) (texts (view_words path.now))) }
{
    match type_in_scope(path, scope) {
        Some(shape) => Ok(shape.clone()?),
        None => make_opaque(alloc),
    }
}

/// The module type that a path names, or none. It takes no memory.
fn type_in_scope<'a>(path: &[Word], scope: &'a Scope) -> Option<&'a Shared>
    ensures { or_value (option_copied result) Opaque ≡ type_under (Struct (entries_of scope.now)) (texts (view_words path.now)) }
{
    match path.split_last() {
        Some((last, front)) => type_behind(front, last, scope),
        None => None,
    }
}

/// The module type of a name in the module at the end of a path, or in the scope if there is no path.
#[tactic(auto, using(crate::proofs::Types::type_alone, crate::proofs::Types::type_behind_so))]
fn type_behind<'a>(front: &[Word], last: &Word, scope: &'a Scope) -> Option<&'a Shared>
    ensures { or_value (option_copied result) Opaque ≡ type_under (Struct (entries_of scope.now)) (texts (view_words (front.now ++ last.now ∷ []))) }
{
    match front {
        [] => mty_in(scope, last.name.as_bytes()),
        [_, ..] => type_within(path_in(scope, front), last.name.as_bytes()),
    }
}

/// The module type of a name in a module, if there is such a module.
#[tactic(auto, using(crate::proofs::Types::type_in_so))]
fn type_within<'a>(shape: Option<&'a Shared>, name: &[u8]) -> Option<&'a Shared>
    ensures { or_value (option_copied result) Opaque ≡ type_in (or_value (option_copied shape.entry) Opaque) name.now }
{
    match shape {
        Some(shape) => mty_of(shape, name),
        None => None,
    }
}

/// The first token of a module type. It takes stack at each level of the type.
#[tactic(auto, using(ml_trees::proofs::Variants::mod_type_views))]
pub fn type_start(s: &ModType) -> u32
    ensures { result ≡ start (view_mod_type s.now) }
{
    match s {
        ModType::TypePath(path) => start_of(&path.words),
        ModType::Sig { at, .. } => *at,
        ModType::TypeOf { at, .. } => *at,
        ModType::TypeParen { at, .. } => *at,
        ModType::With { body, .. } => type_start(body),
        ModType::FunctorType { at, .. } => *at,
        ModType::ParamArrow { param, .. } => param_start(param),
        ModType::Arrow { param, .. } => type_start(param),
    }
}

/// The token of the `(` of a parameter. It takes no memory.
#[tactic(auto, using(ml_trees::proofs::Variants::functor_param_views))]
fn param_start(part: &FunctorParam) -> u32
    ensures { result ≡ start_of_param (view_functor_param part.now) }
{
    match part {
        FunctorParam::Named { open, .. } => *open,
        FunctorParam::NoParam { open } => *open,
    }
}
