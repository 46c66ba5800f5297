//! Calls below the renamings: the lexer, expressions at the bound on levels, the order of units, replaced spans,
//! footprints and names.
#![tactic(auto)]

#[cfg(test)]
mod folder;

#[cfg(test)]
pub use folder::{describe_refusal, read_pair};

#[cfg(test)]
mod tests;
