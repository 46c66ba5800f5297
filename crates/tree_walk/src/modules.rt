//! The walk over modules, module types and their items.
//!
//! Each function goes down with its tree, so it takes stack at each level: the parsers build no tree that is deeper
//! than the bound on levels.

ghost use Rattle.std.specs.Prelude.{◌≡◌, OnOk};
ghost use Rattle.ml_trees.specs.View.{view_mod, view_mod_argument, view_functor_param, view_mod_type, view_module_name, view_item, view_sig_item, view_file, mod_arguments, functor_params, signature, items, sig_items};
ghost use Rattle.ml_trees.specs.Events.{scope_begins};
ghost use Rattle.tree_events.specs.Told.{brings_told, mod_told, mod_argument_told, mod_arguments_told, functor_param_told, functor_params_told, mod_type_told, signature_told, item_told, items_told, sig_item_told, sig_items_told, file_told};
ghost use Rattle.tree_walk.specs.Heard.{IsBoundIn};

use crate::event::{Event, Visitor};
use crate::expressions::{expression, group};
use crate::patterns::name;
use ml_trees::{FileTree, FunctorParam, Item, ModArgument, ModExpr, ModType, ModuleName, SigItem};
use rotor_base::Memory;

/// Reports that a module of this name is bound from here on.
#[tactic(auto, using(tree_events::proofs::Tells::module_tells))]
fn bring<V: Visitor>(visitor: &mut V, name: &ModuleName) -> Result<(), Memory>
    ensures { OnOk result (V.state visitor.new ≡ brings_told V.step (V.state visitor.old) (view_module_name name.now)) }
{
    match name {
        ModuleName::Upper(word) => visitor.hear(Event::Brings(word)),
        ModuleName::Any { .. } => Ok(()),
    }
}

/// Reports that the module of an item is bound from here on.
#[tactic(auto, using(ml_trees::proofs::Variants::item_views))]
fn bring_name<V: Visitor>(visitor: &mut V, item: &Item) -> Result<(), Memory>
    ensures { OnOk result (IsBoundIn V.step (view_item item.now) (V.state visitor.old) (V.state visitor.new)) }
{
    match item {
        Item::Module { name, .. } => bring(visitor, name),
        Item::Expression(_) => Ok(()),
        Item::Separator => Ok(()),
        Item::Value { .. } => Ok(()),
        Item::External(_) => Ok(()),
        Item::Type(_) => Ok(()),
        Item::Exception { .. } => Ok(()),
        Item::ModuleType { .. } => Ok(()),
        Item::Open(_) => Ok(()),
        Item::Include { .. } => Ok(()),
    }
}

/// Reports the events of a module expression.
#[cycle(module_walk)]
#[tactic(auto, using(ml_trees::proofs::Variants::mod_expr_views, tree_events::proofs::Tells::module_tells))]
fn module<V: Visitor>(visitor: &mut V, m: &ModExpr) -> Result<(), Memory>
    ensures { OnOk result (V.state visitor.new ≡ mod_told V.step (V.state visitor.old) (view_mod m.now)) }
{
    match m {
        ModExpr::ModPath(path) => visitor.hear(Event::ModulePath(&path.words)),
        ModExpr::Struct { items, .. } => {
            visitor.hear(Event::ScopeBegins)?;
            body(visitor, items)?;
            visitor.hear(Event::ScopeEnds)
        }
        ModExpr::Functor { params, body, .. } => {
            scope_with(visitor, params)?;
            module(visitor, body)?;
            visitor.hear(Event::ScopeEnds)
        }
        ModExpr::Apply {
            function,
            arguments,
        } => {
            module(visitor, function)?;
            all_arguments(visitor, arguments)
        }
        ModExpr::Paren { body, .. } => module(visitor, body),
        ModExpr::Sealed {
            body,
            signature,
            ..
        } => {
            module(visitor, body)?;
            module_type(visitor, signature)
        }
    }
}

#[cycle(module_walk)]
#[tactic(auto, using(ml_trees::proofs::Variants::mod_argument_views, tree_events::proofs::Tells::module_tells))]
fn argument<V: Visitor>(visitor: &mut V, part: &ModArgument) -> Result<(), Memory>
    ensures { OnOk result (V.state visitor.new ≡ mod_argument_told V.step (V.state visitor.old) (view_mod_argument part.now)) }
{
    match part {
        ModArgument::Given { module: m, .. } => module(visitor, m),
        ModArgument::SealedModule {
            module: m,
            signature,
            ..
        } => {
            module(visitor, m)?;
            module_type(visitor, signature)
        }
        ModArgument::Nothing { .. } => Ok(()),
    }
}

#[cycle(module_walk)]
#[tactic(auto, using(ml_trees::proofs::Variants::mod_argument_views, tree_events::proofs::Tells::module_tells))]
fn all_arguments<V: Visitor>(visitor: &mut V, list: &[ModArgument]) -> Result<(), Memory>
    ensures { OnOk result (V.state visitor.new ≡ mod_arguments_told V.step (V.state visitor.old) (mod_arguments list.now)) }
{
    for part in list {
        argument(visitor, part)?;
    }
    Ok(())
}

#[cycle(module_walk)]
#[tactic(auto, using(ml_trees::proofs::Variants::functor_param_views, tree_events::proofs::Tells::module_tells))]
fn parameter<V: Visitor>(visitor: &mut V, part: &FunctorParam) -> Result<(), Memory>
    ensures { OnOk result (V.state visitor.new ≡ functor_param_told V.step (V.state visitor.old) (view_functor_param part.now)) }
{
    match part {
        FunctorParam::Named {
            name: x,
            signature,
            ..
        } => {
            module_type(visitor, signature)?;
            bring(visitor, x)
        }
        FunctorParam::NoParam { .. } => Ok(()),
    }
}

/// Reports that a scope begins, and the events of parameters in it.
#[cycle(module_walk)]
#[tactic(auto, using(ml_trees::proofs::Variants::functor_param_views, tree_events::proofs::Tells::module_tells))]
fn scope_with<V: Visitor>(visitor: &mut V, list: &[FunctorParam]) -> Result<(), Memory>
    ensures { OnOk result (V.state visitor.new ≡ functor_params_told V.step (V.step (V.state visitor.old) scope_begins) (functor_params list.now)) }
{
    visitor.hear(Event::ScopeBegins)?;
    for part in list {
        parameter(visitor, part)?;
    }
    Ok(())
}

/// Reports the events of a module type.
#[cycle(module_walk)]
#[tactic(auto, using(ml_trees::proofs::Variants::mod_type_views, tree_events::proofs::Tells::module_tells))]
fn module_type<V: Visitor>(visitor: &mut V, s: &ModType) -> Result<(), Memory>
    ensures { OnOk result (V.state visitor.new ≡ mod_type_told V.step (V.state visitor.old) (view_mod_type s.now)) }
{
    match s {
        ModType::TypePath(path) => visitor.hear(Event::LastPath(&path.words)),
        ModType::Sig { items, .. } => {
            visitor.hear(Event::ScopeBegins)?;
            face(visitor, items)?;
            visitor.hear(Event::ScopeEnds)
        }
        ModType::TypeOf { module: m, .. } => module(visitor, m),
        ModType::TypeParen { body, .. } => module_type(visitor, body),
        ModType::With { body, .. } => module_type(visitor, body),
        ModType::FunctorType { params, result, .. } => {
            scope_with(visitor, params)?;
            module_type(visitor, result)?;
            visitor.hear(Event::ScopeEnds)
        }
        ModType::ParamArrow { param, result } => {
            visitor.hear(Event::ScopeBegins)?;
            parameter(visitor, param)?;
            module_type(visitor, result)?;
            visitor.hear(Event::ScopeEnds)
        }
        ModType::Arrow { param, result } => {
            module_type(visitor, param)?;
            module_type(visitor, result)
        }
    }
}

#[cycle(module_walk)]
#[tactic(auto, using(ml_trees::proofs::Variants::mod_type_views, tree_events::proofs::Tells::module_tells))]
fn walk_signature<V: Visitor>(visitor: &mut V, s: &Option<Box<ModType>>) -> Result<(), Memory>
    ensures { OnOk result (V.state visitor.new ≡ signature_told V.step (V.state visitor.old) (signature s.now)) }
{
    match s {
        Some(s) => module_type(visitor, s),
        None => Ok(()),
    }
}

/// Reports the events of an item of a structure.
#[cycle(module_walk)]
#[tactic(auto, using(ml_trees::proofs::Variants::item_views, tree_events::proofs::Tells::module_tells))]
fn item<V: Visitor>(visitor: &mut V, part: &Item) -> Result<(), Memory>
    ensures { OnOk result (V.state visitor.new ≡ item_told V.step (V.state visitor.old) (view_item part.now)) }
{
    match part {
        Item::Expression(e) => expression(visitor, e),
        Item::Separator => Ok(()),
        Item::Value { first, rest, .. } => group(visitor, first, rest),
        Item::External(external) => name(visitor, true, &external.name),
        Item::Type(_) => Ok(()),
        Item::Exception { .. } => Ok(()),
        Item::Module {
            params,
            signature,
            body,
            ..
        } => {
            scope_with(visitor, params)?;
            walk_signature(visitor, signature)?;
            module(visitor, body)?;
            visitor.hear(Event::ScopeEnds)?;
            bring_name(visitor, part)
        }
        Item::ModuleType { signature, .. } => module_type(visitor, signature),
        Item::Open(open) => visitor.hear(Event::ModulePath(&open.path.words)),
        Item::Include { module: m, .. } => module(visitor, m),
    }
}

/// Reports the events of the items of a structure.
#[cycle(module_walk)]
#[tactic(auto, using(ml_trees::proofs::Variants::item_views, tree_events::proofs::Tells::module_tells))]
fn body<V: Visitor>(visitor: &mut V, list: &[Item]) -> Result<(), Memory>
    ensures { OnOk result (V.state visitor.new ≡ items_told V.step (V.state visitor.old) (items list.now)) }
{
    for part in list {
        item(visitor, part)?;
    }
    Ok(())
}

/// Reports the events of an item of a signature.
#[cycle(module_walk)]
#[tactic(auto, using(ml_trees::proofs::Variants::sig_item_views, tree_events::proofs::Tells::module_tells))]
fn signature_item<V: Visitor>(visitor: &mut V, part: &SigItem) -> Result<(), Memory>
    ensures { OnOk result (V.state visitor.new ≡ sig_item_told V.step (V.state visitor.old) (view_sig_item part.now)) }
{
    match part {
        SigItem::SigSeparator => Ok(()),
        SigItem::Val { name: x, .. } => name(visitor, true, x),
        SigItem::SigExternal(external) => name(visitor, true, &external.name),
        SigItem::SigType(_) => Ok(()),
        SigItem::SigException { .. } => Ok(()),
        SigItem::SigModule {
            name: x,
            params,
            signature,
            ..
        } => {
            scope_with(visitor, params)?;
            module_type(visitor, signature)?;
            visitor.hear(Event::ScopeEnds)?;
            bring(visitor, x)
        }
        SigItem::Alias {
            name: word,
            path,
            ..
        } => {
            visitor.hear(Event::ModulePath(&path.words))?;
            visitor.hear(Event::Brings(word))
        }
        SigItem::SigModuleType { signature, .. } => module_type(visitor, signature),
        SigItem::SigOpen(open) => visitor.hear(Event::ModulePath(&open.path.words)),
        SigItem::SigInclude { signature, .. } => module_type(visitor, signature),
    }
}

/// Reports the events of the items of a signature.
#[cycle(module_walk)]
#[tactic(auto, using(ml_trees::proofs::Variants::sig_item_views, tree_events::proofs::Tells::module_tells))]
fn face<V: Visitor>(visitor: &mut V, list: &[SigItem]) -> Result<(), Memory>
    ensures { OnOk result (V.state visitor.new ≡ sig_items_told V.step (V.state visitor.old) (sig_items list.now)) }
{
    for part in list {
        signature_item(visitor, part)?;
    }
    Ok(())
}

/// Reports the events of a file to a visitor, in the order of its words. The error is that of the visitor.
#[tactic(auto, using(tree_events::proofs::Tells::module_tells))]
pub fn walk<V: Visitor>(visitor: &mut V, tree: &FileTree) -> Result<(), Memory>
    ensures { OnOk result (V.state visitor.new ≡ file_told V.step (V.state visitor.old) (view_file tree.now)) }
{
    match tree {
        FileTree::Body(_, items) => body(visitor, items),
        FileTree::Face(_, items) => face(visitor, items),
    }
}
