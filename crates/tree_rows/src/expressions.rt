//! The names and parts of expressions.

use ml_trees::Expr;
use std::alloc::{AllocError, Global};

/// The production of an expression, how many further parts it has, and the place after it.
pub fn expression_text(alloc: Global, expr: &Expr, end: usize) -> Result<String, AllocError> {
    if let Expr::Chain { level, rest, .. } = expr {
        return format!(in alloc; "level {level}, parts {}, end {end}", rest.len());
    }
    let (name, parts) = production(expr);
    format!(in alloc; "{name}, parts {parts}, end {end}")
}

/// The production of an expression, and how many further parts it has.
fn production(expr: &Expr) -> (&'static str, usize) {
    match expr {
        Expr::Seq { rest, last, .. } => (choose(*last, "seq;", "seq"), rest.len()),
        Expr::Let {
            recursive,
            rest,
            ..
        } => (choose(*recursive, "let rec", "let"), rest.len()),
        Expr::LetOpen { path, .. } => ("let open", path.words.len()),
        Expr::LetModule { value, .. } => ("let module", value.arguments.len()),
        Expr::Fun { params, .. } => ("fun", params.len()),
        Expr::Function { rest, .. } => ("function", rest.len()),
        Expr::Match { rest, .. } => ("match", rest.len()),
        Expr::Try { rest, .. } => ("try", rest.len()),
        Expr::If {
            more,
            otherwise,
            ..
        } => (choose(otherwise.is_some(), "if else", "if"), more.len()),
        Expr::Assign { rest, .. } => ("assign", rest.len()),
        Expr::Tuple { rest, .. } => ("tuple", rest.len()),
        Expr::Minus { .. } => ("minus", 0),
        Expr::Apply { arguments, .. } => ("apply", arguments.len()),
        Expr::ConstrApply { path, .. } => ("constructor applied", path.words.len()),
        Expr::TagApply { .. } => ("tag applied", 0),
        Expr::Assert { .. } => ("assert", 0),
        Expr::Lazy { .. } => ("lazy", 0),
        Expr::Postfix { parts, .. } => ("postfix", parts.len()),
        Expr::Prefixed { .. } => ("prefixed", 0),
        atom => atom_production(atom),
    }
}

fn atom_production(atom: &Expr) -> (&'static str, usize) {
    match atom {
        Expr::Literal(_) => ("literal", 0),
        Expr::Bool { .. } => ("bool", 0),
        Expr::Value { path, .. } => ("value", path.len()),
        Expr::Constr(path) => ("constructor", path.words.len()),
        Expr::Tag(_) => ("tag", 0),
        Expr::Unit { .. } => ("unit", 0),
        Expr::Paren { .. } => ("parentheses", 0),
        Expr::Typed { .. } => ("typed", 0),
        Expr::Coerced { from, .. } => (choose(from.is_some(), "typed and coerced", "coerced"), 0),
        Expr::EmptyBegin { .. } => ("empty begin", 0),
        Expr::Begin { .. } => ("begin", 0),
        Expr::Empty { .. } => ("empty", 0),
        Expr::List { rest, last, .. } => (choose(*last, "list;", "list"), rest.len()),
        Expr::Record { base, rest, .. } => {
            (choose(base.is_some(), "record with", "record"), rest.len())
        }
        Expr::Opened { path, .. } => ("opened", path.words.len()),
        Expr::While { .. } => ("while", 0),
        Expr::For { down, .. } => (choose(*down, "for downto", "for to"), 0),
        _ => ("no atom", 0),
    }
}

fn choose(holds: bool, yes: &'static str, no: &'static str) -> &'static str {
    if holds { yes } else { no }
}
