//! The order in which units are linked.
#![tactic(auto)]

mod cycle;
mod link_order;
mod listed;
mod need_lists;
mod taking;

pub use link_order::{OrderError, order};
pub use unit_heads::needs;
