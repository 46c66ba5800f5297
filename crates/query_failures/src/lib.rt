//! The failures of what an editor asks of a folder: a sentence in one line for a person, and what a program reads.
#![tactic(auto)]

mod failure;
mod folder;
mod renaming;
mod sentence;

pub use failure::{parameter_failure, plain_failure};
pub use folder::{folder_failure, project_failure};
pub use renaming::{renaming_failure, valueless_failure};
pub use sentence::message_sentence;
