//! The system's folder over a disk in memory, in which each call fails in turn.
#![tactic(auto)]

#[cfg(test)]
mod tests;
