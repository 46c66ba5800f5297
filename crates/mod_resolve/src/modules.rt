//! Module expressions, module types and their items, in their scopes.
//!
//! Each function goes down with its tree, so it takes stack at each level: the parsers build no tree that is deeper
//! than the bound on levels.

ghost use Rattle.std.specs.Prelude.{◌≡◌, ◌≤◌, IfOk, length, take};
ghost use Rattle.ml_trees.specs.View.{view_mod, view_mod_type, view_mod_argument, view_functor_param, view_item, view_sig_item, mod_arguments, functor_params, signature, items, sig_items};
ghost use Rattle.shape_core.specs.Shape.{◌⊕◌};
ghost use Rattle.shape_core.specs.Node.{entries_of};
ghost use Rattle.binding_model.specs.Scopes.{mod_shape, type_shape, applied as applied_shape, applied_all, params_in, adds, opens, entries, sig_adds, sig_opens, sig_entries};
ghost use Rattle.binding_model.specs.Taken.{HasTaken, HasStopped};
ghost use Rattle.binding_model.specs.Walk.{mod_steps, mod_argument_steps, mod_arguments_steps, functor_param_steps, functor_steps, type_steps, item_steps, items_steps, sig_item_steps, sig_items_steps};
ghost use Rattle.name_resolve.specs.Opened.{brings_any};
ghost use Rattle.module_entries.specs.Given.{given_shape, given_shapes, optional_shape, optional_type_steps};

use binding_model::Found;
use expr_resolve::{expression, let_part, let_parts};
use ml_trees::{FunctorParam, Item, ModArgument, ModExpr, ModType, SigItem};
use module_entries::{
    Added, add_nothing, add_opened, add_shown, append, declare_value, end_empty_param,
    functor_from, functor_of, module_site, named_module, param_entries, token_of, type_at,
    type_entry, type_start,
};
use name_resolve::{end_weighed_site, go_on_with, group, match_target, open_any, resolve_opening};
use pattern_resolve::{apply, apply_to_nothing, let_values, module_entry, shape_at, share_result};
use rotor_base::Place;
use shape_core::{FactError, Scope, Shared, SharedEntry, bring, make_functor, make_struct};
use std::alloc::Global;

/// The shape of a module expression in its scope. After an `Ok` the scope is as it was. The errors are `Heavy`, at the
/// first site that is too heavy, and `Memory`. It takes stack at each level of the module.
#[cycle(modules)]
#[tactic(auto, using(ml_trees::proofs::Variants::mod_expr_views, module_entries::proofs::Parameters::given_so, expr_resolve::proofs::Fronts::front_of_front, binding_model::proofs::Takings::heavy_stays))]
pub fn module(
    alloc: Global,
    found: &mut Found,
    file: u32,
    m: &ModExpr,
    scope: &mut Scope,
) -> Result<Shared, FactError>
    ensures taken { HasTaken result found.old found.new (mod_steps file (entries_of scope.old) (view_mod m.now)) }
    ensures heavy { HasStopped result found.old (mod_steps file (entries_of scope.old) (view_mod m.now)) }
    ensures shape { IfOk result (λ shape. shape ≡ mod_shape file (entries_of scope.old) (view_mod m.now)) }
    ensures scope { IfOk result (λ _. scope.new ≡ scope.old) }
{
    match m {
        ModExpr::ModPath(path) => Ok(shape_at(alloc, &path.words, scope)?),
        ModExpr::Struct { items, .. } => {
            let entries = structure(alloc, found, file, items, scope)?;
            Ok(make_struct(alloc, entries)?)
        }
        ModExpr::Functor { params, body, .. } => {
            let len = scope.len();
            let given = functor_params(alloc, found, file, params, scope)?;
            let shape = module(alloc, found, file, body, scope)?;
            scope.cut(len);
            Ok(functor_from(alloc, given, shape)?)
        }
        ModExpr::Apply {
            function,
            arguments,
        } => {
            let shape = module(alloc, found, file, function, scope)?;
            applications(alloc, found, file, arguments, shape, scope)
        }
        ModExpr::Paren { body, .. } => module(alloc, found, file, body, scope),
        ModExpr::Sealed {
            body,
            signature,
            ..
        } => {
            let source = module(alloc, found, file, body, scope)?;
            let target = module_type(alloc, found, file, signature, scope)?;
            match_target(alloc, found, &source, &target)?;
            Ok(target)
        }
    }
}

/// Arguments of a module, each applied as it ends.
#[cycle(modules)]
#[tactic(auto, using(binding_model::proofs::Takings::heavy_stays))]
fn applications(
    alloc: Global,
    found: &mut Found,
    file: u32,
    list: &[ModArgument],
    function: Shared,
    scope: &mut Scope,
) -> Result<Shared, FactError>
    ensures taken { HasTaken result found.old found.new (mod_arguments_steps file (entries_of scope.old) function (mod_arguments list.now)) }
    ensures heavy { HasStopped result found.old (mod_arguments_steps file (entries_of scope.old) function (mod_arguments list.now)) }
    ensures shape { IfOk result (λ shape. shape ≡ applied_all function (mod_arguments list.now)) }
    ensures scope { IfOk result (λ _. scope.new ≡ scope.old) }
{
    let mut shape = function;
    for part in list {
        shape = application(alloc, found, file, part, &shape, scope)?;
    }
    Ok(shape)
}

#[cycle(modules)]
#[tactic(auto, using(ml_trees::proofs::Variants::mod_argument_views, binding_model::proofs::Takings::heavy_stays))]
fn application(
    alloc: Global,
    found: &mut Found,
    file: u32,
    part: &ModArgument,
    function: &Shared,
    scope: &mut Scope,
) -> Result<Shared, FactError>
    ensures taken { HasTaken result found.old found.new (mod_argument_steps file (entries_of scope.old) function.now (view_mod_argument part.now)) }
    ensures heavy { HasStopped result found.old (mod_argument_steps file (entries_of scope.old) function.now (view_mod_argument part.now)) }
    ensures shape { IfOk result (λ shape. shape ≡ applied_shape function.now) }
    ensures scope { IfOk result (λ _. scope.new ≡ scope.old) }
{
    match part {
        ModArgument::Given { module: m, .. } => {
            let argument = module(alloc, found, file, m, scope)?;
            apply(alloc, found, function, &argument)?;
        }
        ModArgument::SealedModule {
            module: m,
            signature,
            ..
        } => {
            let source = module(alloc, found, file, m, scope)?;
            let target = module_type(alloc, found, file, signature, scope)?;
            match_target(alloc, found, &source, &target)?;
            apply(alloc, found, function, &target)?;
        }
        ModArgument::Nothing { .. } => apply_to_nothing(alloc, found, function)?,
    }
    Ok(share_result(alloc, function)?)
}

/// Parameters of a functor, each in the scope of those before it, with the shapes of those that have one. The scope
/// goes on with them.
#[cycle(modules)]
#[tactic(auto, using(name_resolve::proofs::Lemmas::scopes_joined, expr_resolve::proofs::Fronts::front_of_front, module_entries::proofs::Parameters::given_so, binding_model::proofs::Takings::heavy_stays))]
fn functor_params(
    alloc: Global,
    found: &mut Found,
    file: u32,
    list: &[FunctorParam],
    scope: &mut Scope,
) -> Result<Vec<Option<Shared>>, FactError>
    ensures taken { HasTaken result found.old found.new (functor_steps file (entries_of scope.old) (functor_params list.now)) }
    ensures heavy { HasStopped result found.old (functor_steps file (entries_of scope.old) (functor_params list.now)) }
    ensures given { IfOk result (λ v. v.items ≡ given_shapes file (entries_of scope.old) (functor_params list.now)) }
    ensures grown { IfOk result (λ _. entries_of scope.new ≡ entries_of scope.old ⊕ params_in file (entries_of scope.old) (functor_params list.now)) }
    ensures front { IfOk result (λ _. take (length scope.old) scope.new ≡ scope.old) }
    ensures long { IfOk result (λ _. length scope.old ≤ length scope.new) }
{
    let mut given = Vec::new(alloc);
    for part in list {
        let shape = functor_param(alloc, found, file, part, scope)?;
        let entries = param_entries(alloc, part, &shape)?;
        go_on_with(scope, &entries)?;
        given.push(shape)?;
    }
    Ok(given)
}

/// A parameter of a functor, with its shape if it has a name.
#[cycle(modules)]
#[tactic(auto, using(ml_trees::proofs::Variants::functor_param_views, binding_model::proofs::Takings::heavy_stays))]
fn functor_param(
    alloc: Global,
    found: &mut Found,
    file: u32,
    part: &FunctorParam,
    scope: &mut Scope,
) -> Result<Option<Shared>, FactError>
    ensures taken { HasTaken result found.old found.new (functor_param_steps file (entries_of scope.old) (view_functor_param part.now)) }
    ensures heavy { HasStopped result found.old (functor_param_steps file (entries_of scope.old) (view_functor_param part.now)) }
    ensures given { IfOk result (λ o. o ≡ given_shape file (entries_of scope.old) (view_functor_param part.now)) }
    ensures scope { IfOk result (λ _. scope.new ≡ scope.old) }
{
    match part {
        FunctorParam::Named {
            name,
            signature,
            ..
        } => {
            let shape = module_type(alloc, found, file, signature, scope)?;
            let at = Place {
                file,
                token: token_of(name),
            };
            end_weighed_site(found, at, &shape)?;
            Ok(Some(shape))
        }
        FunctorParam::NoParam { open } => {
            end_empty_param(alloc, found, file, *open)?;
            Ok(None)
        }
    }
}

/// The shape of a module type in its scope. After an `Ok` the scope is as it was. The errors are `Heavy`, at the first
/// site that is too heavy, and `Memory`.
#[cycle(modules)]
#[tactic(auto, using(ml_trees::proofs::Variants::mod_type_views, module_entries::proofs::Parameters::given_so, expr_resolve::proofs::Fronts::front_of_front, binding_model::proofs::Takings::heavy_stays))]
pub fn module_type(
    alloc: Global,
    found: &mut Found,
    file: u32,
    s: &ModType,
    scope: &mut Scope,
) -> Result<Shared, FactError>
    ensures taken { HasTaken result found.old found.new (type_steps file (entries_of scope.old) (view_mod_type s.now)) }
    ensures heavy { HasStopped result found.old (type_steps file (entries_of scope.old) (view_mod_type s.now)) }
    ensures shape { IfOk result (λ shape. shape ≡ type_shape file (entries_of scope.old) (view_mod_type s.now)) }
    ensures scope { IfOk result (λ _. scope.new ≡ scope.old) }
{
    match s {
        ModType::TypePath(path) => Ok(type_at(alloc, &path.words, scope)?),
        ModType::Sig { items, .. } => {
            let entries = signature(alloc, found, file, items, scope)?;
            Ok(make_struct(alloc, entries)?)
        }
        ModType::TypeOf { module: m, .. } => module(alloc, found, file, m, scope),
        ModType::TypeParen { body, .. } => module_type(alloc, found, file, body, scope),
        ModType::With { body, .. } => module_type(alloc, found, file, body, scope),
        ModType::FunctorType { params, result, .. } => {
            let len = scope.len();
            let given = functor_params(alloc, found, file, params, scope)?;
            let shape = module_type(alloc, found, file, result, scope)?;
            scope.cut(len);
            Ok(functor_from(alloc, given, shape)?)
        }
        ModType::ParamArrow { param, result } => {
            let len = scope.len();
            let given = functor_param(alloc, found, file, param, scope)?;
            let entries = param_entries(alloc, param, &given)?;
            go_on_with(scope, &entries)?;
            let shape = module_type(alloc, found, file, result, scope)?;
            scope.cut(len);
            Ok(functor_of(alloc, given, shape)?)
        }
        ModType::Arrow { param, result } => {
            let source = module_type(alloc, found, file, param, scope)?;
            let at = Place {
                file,
                token: type_start(result).saturating_sub(1),
            };
            end_weighed_site(found, at, &source)?;
            let target = module_type(alloc, found, file, result, scope)?;
            Ok(make_functor(alloc, source, target)?)
        }
    }
}

/// The signature of a module, if there is one.
#[cycle(modules)]
#[tactic(auto, using(binding_model::proofs::Takings::heavy_stays))]
fn optional_type(
    alloc: Global,
    found: &mut Found,
    file: u32,
    s: &Option<Box<ModType>>,
    scope: &mut Scope,
) -> Result<Option<Shared>, FactError>
    ensures taken { HasTaken result found.old found.new (optional_type_steps file (entries_of scope.old) (signature s.now)) }
    ensures heavy { HasStopped result found.old (optional_type_steps file (entries_of scope.old) (signature s.now)) }
    ensures shape { IfOk result (λ o. o ≡ optional_shape file (entries_of scope.old) (signature s.now)) }
    ensures scope { IfOk result (λ _. scope.new ≡ scope.old) }
{
    match s {
        Some(s) => Ok(Some(module_type(alloc, found, file, s, scope)?)),
        None => Ok(None),
    }
}

/// The entries of a structure. After an `Ok` the scope is as it was. The errors are `Heavy`, at the first site that is
/// too heavy, and `Memory`.
#[cycle(modules)]
#[tactic(auto, using(binding_model::proofs::Takings::heavy_stays))]
pub fn structure(
    alloc: Global,
    found: &mut Found,
    file: u32,
    list: &[Item],
    scope: &mut Scope,
) -> Result<Vec<SharedEntry>, FactError>
    ensures taken { HasTaken result found.old found.new (items_steps file (entries_of scope.old) (items list.now)) }
    ensures heavy { HasStopped result found.old (items_steps file (entries_of scope.old) (items list.now)) }
    ensures entries { IfOk result (λ v. entries_of v.items ≡ entries file (entries_of scope.old) (items list.now)) }
    ensures scope { IfOk result (λ _. scope.new ≡ scope.old) }
{
    let len = scope.len();
    let entries = all_items(alloc, found, file, list, scope)?;
    scope.cut(len);
    Ok(entries)
}

/// The entries of a structure. The scope goes on with them and with what the items open.
#[cycle(modules)]
#[tactic(auto, using(name_resolve::proofs::Lemmas::scopes_joined, expr_resolve::proofs::Fronts::front_of_front, binding_model::proofs::Takings::heavy_stays))]
fn all_items(
    alloc: Global,
    found: &mut Found,
    file: u32,
    list: &[Item],
    scope: &mut Scope,
) -> Result<Vec<SharedEntry>, FactError>
    ensures taken { HasTaken result found.old found.new (items_steps file (entries_of scope.old) (items list.now)) }
    ensures heavy { HasStopped result found.old (items_steps file (entries_of scope.old) (items list.now)) }
    ensures entries { IfOk result (λ v. entries_of v.items ≡ entries file (entries_of scope.old) (items list.now)) }
    ensures front { IfOk result (λ _. take (length scope.old) scope.new ≡ scope.old) }
    ensures long { IfOk result (λ _. length scope.old ≤ length scope.new) }
{
    let mut made = Vec::new(alloc);
    for part in list {
        let added = item(alloc, found, file, part, scope)?;
        go_on_with(scope, &added.shown)?;
        open_any(scope, added.opened)?;
        append(&mut made, added.shown)?;
    }
    Ok(made)
}

/// The entries of a signature. After an `Ok` the scope is as it was. The errors are `Heavy`, at the first site that is
/// too heavy, and `Memory`.
#[cycle(modules)]
#[tactic(auto, using(binding_model::proofs::Takings::heavy_stays))]
pub fn signature(
    alloc: Global,
    found: &mut Found,
    file: u32,
    list: &[SigItem],
    scope: &mut Scope,
) -> Result<Vec<SharedEntry>, FactError>
    ensures taken { HasTaken result found.old found.new (sig_items_steps file (entries_of scope.old) (sig_items list.now)) }
    ensures heavy { HasStopped result found.old (sig_items_steps file (entries_of scope.old) (sig_items list.now)) }
    ensures entries { IfOk result (λ v. entries_of v.items ≡ sig_entries file (entries_of scope.old) (sig_items list.now)) }
    ensures scope { IfOk result (λ _. scope.new ≡ scope.old) }
{
    let len = scope.len();
    let entries = all_sig_items(alloc, found, file, list, scope)?;
    scope.cut(len);
    Ok(entries)
}

/// The entries of a signature. The scope goes on with them and with what the items open.
#[cycle(modules)]
#[tactic(auto, using(name_resolve::proofs::Lemmas::scopes_joined, expr_resolve::proofs::Fronts::front_of_front, binding_model::proofs::Takings::heavy_stays))]
fn all_sig_items(
    alloc: Global,
    found: &mut Found,
    file: u32,
    list: &[SigItem],
    scope: &mut Scope,
) -> Result<Vec<SharedEntry>, FactError>
    ensures taken { HasTaken result found.old found.new (sig_items_steps file (entries_of scope.old) (sig_items list.now)) }
    ensures heavy { HasStopped result found.old (sig_items_steps file (entries_of scope.old) (sig_items list.now)) }
    ensures entries { IfOk result (λ v. entries_of v.items ≡ sig_entries file (entries_of scope.old) (sig_items list.now)) }
    ensures front { IfOk result (λ _. take (length scope.old) scope.new ≡ scope.old) }
    ensures long { IfOk result (λ _. length scope.old ≤ length scope.new) }
{
    let mut made = Vec::new(alloc);
    for part in list {
        let added = sig_item(alloc, found, file, part, scope)?;
        go_on_with(scope, &added.shown)?;
        open_any(scope, added.opened)?;
        append(&mut made, added.shown)?;
    }
    Ok(made)
}

/// An item of a structure: what it adds to the structure and to the scope, and what it opens in the scope alone.
#[cycle(modules)]
#[tactic(auto, using(ml_trees::proofs::Variants::item_views, module_entries::proofs::Parameters::given_so, module_entries::proofs::Parameters::sealing_so, expr_resolve::proofs::Fronts::front_of_front, binding_model::proofs::Takings::heavy_stays))]
fn item(
    alloc: Global,
    found: &mut Found,
    file: u32,
    part: &Item,
    scope: &mut Scope,
) -> Result<Added, FactError>
    ensures taken { HasTaken result found.old found.new (item_steps file (entries_of scope.old) (view_item part.now)) }
    ensures heavy { HasStopped result found.old (item_steps file (entries_of scope.old) (view_item part.now)) }
    ensures shown { IfOk result (λ a. entries_of a.shown.items ≡ adds file (entries_of scope.old) (view_item part.now)) }
    ensures opened { IfOk result (λ a. brings_any a.opened ≡ opens file (entries_of scope.old) (view_item part.now)) }
    ensures scope { IfOk result (λ _. scope.new ≡ scope.old) }
{
    match part {
        Item::Expression(e) => {
            expression(alloc, found, file, e, scope)?;
            Ok(add_nothing(alloc))
        }
        Item::Separator => Ok(add_nothing(alloc)),
        Item::Value {
            recursive,
            first,
            rest,
            ..
        } => {
            let values = let_values(alloc, file, first, rest)?;
            group(alloc, found, &values)?;
            let_part(alloc, found, file, first, *recursive, &values, scope)?;
            let_parts(alloc, found, file, rest, *recursive, &values, scope)?;
            Ok(add_shown(values))
        }
        Item::External(external) => Ok(add_shown(declare_value(alloc, file, &external.name)?)),
        Item::Type(_) => Ok(add_nothing(alloc)),
        Item::Exception { .. } => Ok(add_nothing(alloc)),
        Item::Module {
            at,
            name,
            params,
            signature,
            body,
            ..
        } => {
            let len = scope.len();
            let given = functor_params(alloc, found, file, params, scope)?;
            let target = optional_type(alloc, found, file, signature, scope)?;
            let source = module(alloc, found, file, body, scope)?;
            scope.cut(len);
            let at = Place { file, token: *at };
            let shape = module_site(alloc, found, at, given, source, target)?;
            Ok(add_shown(named_module(alloc, name, shape)?))
        }
        Item::ModuleType {
            at,
            name,
            signature,
            ..
        } => {
            let shape = module_type(alloc, found, file, signature, scope)?;
            end_weighed_site(found, Place { file, token: *at }, &shape)?;
            Ok(add_shown(type_entry(alloc, name, shape)?))
        }
        Item::Open(open) => {
            let at = Place {
                file,
                token: open.at,
            };
            let opened = resolve_opening(found, &open.path.words, at, scope)?;
            Ok(add_opened(alloc, opened))
        }
        Item::Include { at, module: m } => {
            let shape = module(alloc, found, file, m, scope)?;
            let at = Place { file, token: *at };
            end_weighed_site(found, at, &shape)?;
            Ok(add_shown(bring(alloc, Some(&shape), at)?))
        }
    }
}

/// An item of a signature, as for [`item`].
#[cycle(modules)]
#[tactic(auto, using(ml_trees::proofs::Variants::sig_item_views, module_entries::proofs::Parameters::given_so, expr_resolve::proofs::Fronts::front_of_front, binding_model::proofs::Takings::heavy_stays))]
fn sig_item(
    alloc: Global,
    found: &mut Found,
    file: u32,
    part: &SigItem,
    scope: &mut Scope,
) -> Result<Added, FactError>
    ensures taken { HasTaken result found.old found.new (sig_item_steps file (entries_of scope.old) (view_sig_item part.now)) }
    ensures heavy { HasStopped result found.old (sig_item_steps file (entries_of scope.old) (view_sig_item part.now)) }
    ensures shown { IfOk result (λ a. entries_of a.shown.items ≡ sig_adds file (entries_of scope.old) (view_sig_item part.now)) }
    ensures opened { IfOk result (λ a. brings_any a.opened ≡ sig_opens file (entries_of scope.old) (view_sig_item part.now)) }
    ensures scope { IfOk result (λ _. scope.new ≡ scope.old) }
{
    match part {
        SigItem::SigSeparator => Ok(add_nothing(alloc)),
        SigItem::Val { name, .. } => Ok(add_shown(declare_value(alloc, file, name)?)),
        SigItem::SigExternal(external) => Ok(add_shown(declare_value(
            alloc,
            file,
            &external.name,
        )?)),
        SigItem::SigType(_) => Ok(add_nothing(alloc)),
        SigItem::SigException { .. } => Ok(add_nothing(alloc)),
        SigItem::SigModule {
            at,
            name,
            params,
            signature,
        } => {
            let len = scope.len();
            let given = functor_params(alloc, found, file, params, scope)?;
            let shape = module_type(alloc, found, file, signature, scope)?;
            scope.cut(len);
            let shape = functor_from(alloc, given, shape)?;
            end_weighed_site(found, Place { file, token: *at }, &shape)?;
            Ok(add_shown(named_module(alloc, name, shape)?))
        }
        SigItem::Alias { at, name, path, .. } => {
            let shape = shape_at(alloc, &path.words, scope)?;
            end_weighed_site(found, Place { file, token: *at }, &shape)?;
            Ok(add_shown(module_entry(alloc, name, shape)?))
        }
        SigItem::SigModuleType {
            at,
            name,
            signature,
            ..
        } => {
            let shape = module_type(alloc, found, file, signature, scope)?;
            end_weighed_site(found, Place { file, token: *at }, &shape)?;
            Ok(add_shown(type_entry(alloc, name, shape)?))
        }
        SigItem::SigOpen(open) => {
            let at = Place {
                file,
                token: open.at,
            };
            let opened = resolve_opening(found, &open.path.words, at, scope)?;
            Ok(add_opened(alloc, opened))
        }
        SigItem::SigInclude { at, signature } => {
            let shape = module_type(alloc, found, file, signature, scope)?;
            let at = Place { file, token: *at };
            end_weighed_site(found, at, &shape)?;
            Ok(add_shown(bring(alloc, Some(&shape), at)?))
        }
    }
}
