//! What it is to rename a binding of a project that was read: targets, refusals in their order, and what is done.
#![tactic(auto)]

mod laws;

pub use laws::answers_are_one;
