//! What is read where an expression begins: the reading on lists of tokens.
#![tactic(auto)]

mod wanted;

pub use wanted::Wanted;
