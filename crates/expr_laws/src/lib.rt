//! The laws of the reading of expressions: what is read is the longest, and two expressions of the same words are one.
#![tactic(auto)]

mod laws;

pub use laws::one_expr_reading;
