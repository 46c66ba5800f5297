//! The names and parts of files.

use ml_trees::{FileTree, Item, ModExpr, ModType, Open, SigItem, WithClause};
use std::alloc::{AllocError, Global};

/// How many items a file has, the production of the last one, and how many parts that has.
pub fn tree_text(alloc: Global, tree: &FileTree) -> Result<String, AllocError> {
    let (count, last) = match tree {
        FileTree::Body(_, items) => (items.len(), items.last().map(item_production)),
        FileTree::Face(_, items) => (items.len(), items.last().map(sig_item_production)),
    };
    let (name, parts) = last.unwrap_or(("empty", 0));
    format!(in alloc; "items {count}, last {name}, parts {parts}")
}

/// The production of a module expression, and how many parts it has.
fn module_production(module: &ModExpr) -> (&'static str, usize) {
    match module {
        ModExpr::ModPath(path) => ("path", path.words.len()),
        ModExpr::Struct { items, .. } => ("struct", items.len()),
        ModExpr::Functor { params, .. } => ("functor", params.len()),
        ModExpr::Apply { arguments, .. } => ("applied", arguments.len()),
        ModExpr::Paren { .. } => ("parentheses", 0),
        ModExpr::Sealed { .. } => ("sealed", 0),
    }
}

/// How many constraints the last `with` has.
fn last_constraints(clauses: &[WithClause]) -> usize {
    match clauses {
        [.., last] => last.rest.len().saturating_add(1),
        [] => 0,
    }
}

/// The production of a module type, and how many parts it has.
fn type_production(signature: &ModType) -> (&'static str, usize) {
    match signature {
        ModType::TypePath(path) => ("path", path.words.len()),
        ModType::Sig { items, .. } => ("sig", items.len()),
        ModType::TypeOf { .. } => ("type of", 0),
        ModType::TypeParen { .. } => ("parentheses", 0),
        ModType::With { clauses, .. } => ("with", last_constraints(clauses)),
        ModType::FunctorType { params, .. } => ("functor", params.len()),
        ModType::ParamArrow { .. } => ("named arrow", 0),
        ModType::Arrow { .. } => ("arrow", 0),
    }
}

fn open_production(item: &Open) -> (&'static str, usize) {
    match item.bang {
        Some(_) => ("open!", item.path.words.len()),
        None => ("open", item.path.words.len()),
    }
}

/// The production of an item, and how many parts it has; for `include` those of what is included.
fn item_production(item: &Item) -> (&'static str, usize) {
    match item {
        Item::Expression(_) => ("expression", 0),
        Item::Separator => (";;", 0),
        Item::Value {
            recursive,
            rest,
            ..
        } => (if *recursive { "let rec" } else { "let" }, rest.len()),
        Item::External(external) => ("external", external.texts.len()),
        Item::Type(run) => ("type", run.words.len()),
        Item::Exception { run, .. } => ("exception", run.words.len()),
        Item::Module {
            params,
            signature,
            ..
        } => match signature {
            Some(_) => ("sealed module", params.len()),
            None => ("module", params.len()),
        },
        Item::ModuleType { .. } => ("module type", 0),
        Item::Open(open) => open_production(open),
        Item::Include { module, .. } => module_production(module),
    }
}

/// The same of an item of a signature.
fn sig_item_production(item: &SigItem) -> (&'static str, usize) {
    match item {
        SigItem::SigSeparator => (";;", 0),
        SigItem::Val { run, .. } => ("val", run.words.len()),
        SigItem::SigExternal(external) => ("external", external.texts.len()),
        SigItem::SigType(run) => ("type", run.words.len()),
        SigItem::SigException { run, .. } => ("exception", run.words.len()),
        SigItem::SigModule { params, .. } => ("module", params.len()),
        SigItem::Alias { path, .. } => ("alias", path.words.len()),
        SigItem::SigModuleType { .. } => ("module type", 0),
        SigItem::SigOpen(open) => open_production(open),
        SigItem::SigInclude { signature, .. } => type_production(signature),
    }
}
