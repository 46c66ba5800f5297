//! The readers of patterns, and the laws of what they read.
#![tactic(auto)]

mod grown;
mod laws;
mod patterns;

pub use laws::one_pat_reading;
pub use patterns::{pattern, simple_pattern};
