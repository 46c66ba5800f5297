//! A project, resolved: its facts, its groups, and what its look-ups would find under another name.
#![tactic(auto)]

mod project;
mod resolved;

pub use project::units;
pub use resolved::{Resolved, facts, groups, looks};
