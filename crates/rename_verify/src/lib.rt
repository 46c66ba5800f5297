//! Whether one project is a valid respelling of another.
#![tactic(auto)]

mod bytes;
mod calls;
mod candidate;
mod fixed;
mod laws;
mod names;
mod text;
mod verdict;

pub use calls::verify;
pub use laws::{verdicts_are_one, yes_is_valid};
pub use text::verdict_text;
pub use verdict::{Change, Verdict, Why};
