//! What `sample` reports, by the number of units alone.
#![tactic(auto)]

mod laws;

pub use laws::samples_are_counted;
