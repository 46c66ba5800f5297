//! The large valid project of `sample`, and its renaming there and back.
#![tactic(auto)]

mod sources;
mod there_and_back;

pub use sources::sample_files;
pub use there_and_back::sample;
