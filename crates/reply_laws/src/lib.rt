//! Each command over each folder has a reply.
#![tactic(auto)]

mod laws;

pub use laws::replies_are_given;
