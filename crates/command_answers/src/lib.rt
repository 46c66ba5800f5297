//! What `batch` and `verify` are asked has an answer.
#![tactic(auto)]

mod laws;

pub use laws::{batches_are_answered, verdicts_are_answered};
