//! Answers depend on the tokens of files alone, and not on the blanks, comments and attributes between them.
#![tactic(auto)]

mod laws;

pub use laws::{blanks_change_no_answer, blanks_change_no_renaming};
