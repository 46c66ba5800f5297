//! The difference of two texts whose lines correspond by their numbers, as a unified diff.
#![tactic(auto)]

mod hunks;
mod laws;
mod pairs;
mod runs;

pub use hunks::diff;
pub use laws::{diffs_are_one, hunks_give_the_new_text};
