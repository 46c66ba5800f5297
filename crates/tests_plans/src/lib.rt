//! The worked rows of safe writes and of their recovery.
#![tactic(auto)]

#[cfg(test)]
mod tests;
