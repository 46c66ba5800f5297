//! What `rotor-explain batch FILE` says: the diffs of the sources that a batch would change, or the first step that is
//! refused.
#![tactic(auto)]

mod file;
mod steps;
mod stopped;

pub use file::explain_batch;
