//! Chains of needs: the shortest way from a unit through others back to it.
#![tactic(auto)]

mod chain;
mod distances;
mod marks;
mod needs;
mod rows;
mod search;
mod unit_heads;

pub use search::circle;
pub use unit_heads::UnitHeads;
