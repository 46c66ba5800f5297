//! How many levels an expression has.
#![tactic(auto)]

mod levels;
mod pattern_levels;

pub use levels::fits;
