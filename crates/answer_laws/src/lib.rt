//! What `check`, `footprint` and `rename` are asked has an answer.
#![tactic(auto)]

mod laws;

pub use laws::{checks_are_answered, footprints_are_answered, renamings_are_answered};
