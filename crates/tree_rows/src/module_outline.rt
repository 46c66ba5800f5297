//! Files as outlines.

use crate::expression_outline::{add_binding, add_bindings, add_expression};
use crate::outline::Outline;
use ml_trees::{
    Constraint, External, FileTree, FunctorParam, Item, ModArgument, ModExpr, ModType, ModuleName,
    Open, SigItem,
};

/// Adds the items of a file.
pub fn add_file(out: &mut Outline, tree: &FileTree) {
    match tree {
        FileTree::Body(_, list) => add_items(out, list),
        FileTree::Face(_, list) => add_signature_items(out, list),
    }
}

#[cycle(module_outline)]
fn add_items(out: &mut Outline, list: &[Item]) {
    for part in list {
        add_item(out, part);
    }
}

#[cycle(module_outline)]
fn add_item(out: &mut Outline, part: &Item) {
    match part {
        Item::Expression(e) => add_expression(out, e),
        Item::Separator => out.add_production(";;", &[]),
        Item::Value {
            at,
            recursive,
            first,
            rest,
        } => {
            out.open("let");
            out.add_token(*at);
            out.add_flag(*recursive, "rec");
            add_binding(out, first);
            add_bindings(out, rest);
            out.close();
        }
        Item::External(part) => add_external(out, part),
        Item::Type(run) => out.add_run(run),
        Item::Exception { at, run } => {
            out.open("exception");
            out.add_token(*at);
            out.add_run(run);
            out.close();
        }
        Item::Module {
            at,
            name,
            params,
            signature,
            equals,
            body,
        } => {
            out.open("module");
            out.add_token(*at);
            add_module_name(out, name);
            add_functor_params(out, params);
            if let Some(signature) = signature {
                add_module_type(out, signature);
            }
            out.add_token(*equals);
            add_module(out, body);
            out.close();
        }
        Item::ModuleType {
            at,
            name,
            equals,
            signature,
        } => {
            out.open("module-type");
            out.add_token(*at);
            out.add_token(name.token);
            out.add_token(*equals);
            add_module_type(out, signature);
            out.close();
        }
        Item::Open(part) => add_open(out, part),
        Item::Include {
            at,
            module: included,
        } => {
            out.open("include");
            out.add_token(*at);
            add_module(out, included);
            out.close();
        }
    }
}

#[cycle(module_outline)]
fn add_signature_items(out: &mut Outline, list: &[SigItem]) {
    for part in list {
        add_signature_item(out, part);
    }
}

#[cycle(module_outline)]
fn add_signature_item(out: &mut Outline, part: &SigItem) {
    match part {
        SigItem::SigSeparator => out.add_production(";;", &[]),
        SigItem::Val { name, run } => {
            out.open("val");
            out.add_name(name);
            out.add_run(run);
            out.close();
        }
        SigItem::SigExternal(part) => add_external(out, part),
        SigItem::SigType(run) => out.add_run(run),
        SigItem::SigException { at, run } => {
            out.open("exception");
            out.add_token(*at);
            out.add_run(run);
            out.close();
        }
        SigItem::SigModule {
            at,
            name,
            params,
            signature,
        } => {
            out.open("module");
            out.add_token(*at);
            add_module_name(out, name);
            add_functor_params(out, params);
            add_module_type(out, signature);
            out.close();
        }
        SigItem::Alias {
            at,
            name,
            equals,
            path,
        } => {
            out.open("alias");
            out.add_token(*at);
            out.add_token(name.token);
            out.add_token(*equals);
            out.add_path(path);
            out.close();
        }
        SigItem::SigModuleType {
            at,
            name,
            equals,
            signature,
        } => {
            out.open("module-type");
            out.add_token(*at);
            out.add_token(name.token);
            out.add_token(*equals);
            add_module_type(out, signature);
            out.close();
        }
        SigItem::SigOpen(part) => add_open(out, part),
        SigItem::SigInclude { at, signature } => {
            out.open("include");
            out.add_token(*at);
            add_module_type(out, signature);
            out.close();
        }
    }
}

fn add_external(out: &mut Outline, part: &External) {
    out.open("external");
    out.add_name(&part.name);
    out.add_run(&part.run);
    out.add_token(part.equals);
    out.add_words(&part.texts);
    out.close();
}

fn add_open(out: &mut Outline, part: &Open) {
    out.open("open");
    out.add_token(part.at);
    if let Some(bang) = &part.bang {
        out.add_token(bang.token);
    }
    out.add_path(&part.path);
    out.close();
}

fn add_module_name(out: &mut Outline, name: &ModuleName) {
    match name {
        ModuleName::Upper(word) => out.add_token(word.token),
        ModuleName::Any { at } => out.add_production("any", &[*at]),
    }
}

#[cycle(module_outline)]
fn add_functor_params(out: &mut Outline, params: &[FunctorParam]) {
    for part in params {
        add_functor_param(out, part);
    }
}

#[cycle(module_outline)]
fn add_functor_param(out: &mut Outline, part: &FunctorParam) {
    match part {
        FunctorParam::Named {
            open,
            name,
            signature,
        } => {
            out.open("parameter");
            out.add_token(*open);
            add_module_name(out, name);
            add_module_type(out, signature);
            out.close();
        }
        FunctorParam::NoParam { open } => out.add_production("parameter", &[*open]),
    }
}

#[cycle(module_outline)]
fn add_module(out: &mut Outline, m: &ModExpr) {
    match m {
        ModExpr::ModPath(path) => out.add_path_production("path", &path.words),
        ModExpr::Struct { at, items: list } => {
            out.open("struct");
            out.add_token(*at);
            add_items(out, list);
            out.close();
        }
        ModExpr::Functor { at, params, body } => {
            out.open("functor");
            out.add_token(*at);
            add_functor_params(out, params);
            add_module(out, body);
            out.close();
        }
        ModExpr::Apply {
            function,
            arguments,
        } => {
            out.open("apply");
            add_module(out, function);
            for part in arguments {
                add_module_argument(out, part);
            }
            out.close();
        }
        ModExpr::Paren { at, body } => {
            out.open("parentheses");
            out.add_token(*at);
            add_module(out, body);
            out.close();
        }
        ModExpr::Sealed {
            at,
            body,
            signature,
        } => {
            out.open("sealed");
            out.add_token(*at);
            add_module(out, body);
            add_module_type(out, signature);
            out.close();
        }
    }
}

#[cycle(module_outline)]
fn add_module_argument(out: &mut Outline, part: &ModArgument) {
    match part {
        ModArgument::Given {
            open,
            module: given,
        } => {
            out.open("argument");
            out.add_token(*open);
            add_module(out, given);
            out.close();
        }
        ModArgument::SealedModule {
            open,
            module: given,
            signature,
        } => {
            out.open("argument");
            out.add_token(*open);
            add_module(out, given);
            add_module_type(out, signature);
            out.close();
        }
        ModArgument::Nothing { open } => out.add_production("argument", &[*open]),
    }
}

#[cycle(module_outline)]
fn add_module_type(out: &mut Outline, signature: &ModType) {
    match signature {
        ModType::TypePath(path) => out.add_path_production("path", &path.words),
        ModType::Sig { at, items: list } => {
            out.open("sig");
            out.add_token(*at);
            add_signature_items(out, list);
            out.close();
        }
        ModType::TypeOf {
            at,
            module: of_module,
        } => {
            out.open("type-of");
            out.add_token(*at);
            add_module(out, of_module);
            out.close();
        }
        ModType::TypeParen { at, body } => {
            out.open("parentheses");
            out.add_token(*at);
            add_module_type(out, body);
            out.close();
        }
        ModType::With { body, clauses } => {
            out.open("with");
            add_module_type(out, body);
            for clause in clauses {
                out.open("clause");
                add_constraint(out, &clause.first);
                for part in &clause.rest {
                    add_constraint(out, part);
                }
                out.close();
            }
            out.close();
        }
        ModType::FunctorType { at, params, result } => {
            out.open("functor");
            out.add_token(*at);
            add_functor_params(out, params);
            add_module_type(out, result);
            out.close();
        }
        ModType::ParamArrow { param, result } => {
            out.open("arrow");
            add_functor_param(out, param);
            add_module_type(out, result);
            out.close();
        }
        ModType::Arrow { param, result } => {
            out.open("arrow");
            add_module_type(out, param);
            add_module_type(out, result);
            out.close();
        }
    }
}

fn add_constraint(out: &mut Outline, part: &Constraint) {
    out.add_run(&part.left);
    out.add_token(part.sign.token);
    out.add_flag(part.private, "private");
    out.add_run(&part.right);
}
