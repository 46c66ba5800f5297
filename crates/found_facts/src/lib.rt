//! The facts and the looks that a resolver has found, in the order of their places.
#![tactic(auto)]

mod recorders;
mod results;
mod sorting;

pub use recorders::recorder_of;
pub use results::{facts_in, looks_in, start_from_nothing, start_from_sums};
