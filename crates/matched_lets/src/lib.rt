//! That each `let` inside an expression has its `in`.
#![tactic(auto)]

mod laws;

pub use laws::lets_have_their_in;
