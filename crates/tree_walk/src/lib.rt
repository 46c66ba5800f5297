//! One walk over a tree, for every visitor of its words, groups and scopes.
#![tactic(auto)]

mod event;
mod expressions;
mod locals;
mod modules;
mod patterns;

pub use event::{Event, Visitor};
pub use modules::walk;
