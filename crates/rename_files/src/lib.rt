//! Renaming a value binding throughout the files of a project.
#![tactic(auto)]

mod calls;
mod judge;
mod laws;

pub use calls::{check, foot, foot_in, rename, rename_again, rename_in};
pub use laws::answers_are_one;
