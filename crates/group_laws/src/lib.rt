//! A sound project without Duplicate and Unmatched is good: its groups have names of their own.
#![tactic(auto)]

mod laws;

pub use laws::{no_least_is_none, no_repeat_is_apart, unrefused_is_good};
