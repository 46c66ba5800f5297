//! The steps before a renaming is weighed: the refusals of a project, and the binder that a target names.
#![tactic(auto)]

mod aim;
mod project;

pub use aim::{Aim, find_aim};
pub use project::{resolve, resolve_facts, resolve_placed};
