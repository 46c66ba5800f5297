//! The edits of an accepted renaming, source by source, as an editor applies them.
#![tactic(auto)]

mod error;
mod renaming;
mod source;

pub use error::EditsError;
pub use renaming::{FileEdits, edits_of};
