//! The context of the readers of expressions, and what they read, or look at, without expressions inside it.
#![tactic(auto)]

mod edge;
mod ends;
mod grammar;
mod grown;
mod local;
mod operators;
mod pieces;

pub use edge::{Edge, is_calm, on_edge};
pub use ends::{ends_field, fields_end, goes_on, is_bare, is_constr, is_postfix, row_ends};
pub use grammar::Grammar;
pub use grown::{
    grown_apply, grown_assign, grown_chain, grown_postfix, grown_seq, grown_tuple, push_boxed,
};
pub use local::local_module;
pub use operators::level_at;
pub use pieces::{
    bang, direction, find_closing, first_bar, has_colon, is_literal, is_optional, path, path_from,
    read_closed, read_typed, semicolon_if, upper_word, variable,
};
