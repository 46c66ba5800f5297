//! Lists, batches and plans are read, or something says why they are not.
#![tactic(auto)]

mod laws;

pub use laws::{batch_lines_are_decided, lists_are_answered, plans_are_decided};
