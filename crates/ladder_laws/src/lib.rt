//! The ladders of refusals are decided: a first refusal holds, or none does.
#![tactic(auto)]

mod laws;

pub use laws::{projects_are_decided, renamings_are_decided};
