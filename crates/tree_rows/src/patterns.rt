//! The names of patterns.

use ml_trees::Pat;

/// The production of a pattern.
pub fn production(pat: &Pat) -> &'static str {
    match pat {
        Pat::As { .. } => "as",
        Pat::Or { .. } => "or",
        Pat::Tuple { .. } => "tuple",
        Pat::Cons { .. } => "cons",
        Pat::ConstrApply { .. } => "constructor applied",
        Pat::TagApply { .. } => "tag applied",
        Pat::Lazy { .. } => "lazy",
        Pat::Exception { .. } => "exception",
        Pat::Any { .. } => "any",
        Pat::Value(_) => "value",
        Pat::Literal(_) => "literal",
        Pat::Negative { .. } => "negative",
        Pat::Range { .. } => "range",
        Pat::Constr(_) => "constructor",
        Pat::Tag(_) => "tag",
        Pat::Bool { .. } => "bool",
        Pat::Unit { .. } => "unit",
        Pat::Paren { .. } => "parentheses",
        Pat::Typed { .. } => "typed",
        Pat::Empty { .. } => "empty",
        Pat::List { .. } => "list",
        Pat::Record { .. } => "record",
        Pat::Opened { .. } => "opened",
    }
}
