//! The groups of a project's trees: the values that may not share a name. They are found without resolving.
#![tactic(auto)]

mod groups;

pub use groups::units;
