//! The heads of the module paths in a unit's trees that are not bound there.
#![tactic(auto)]

mod bound;
mod counts;
mod heads;
mod path;
mod unit_needs;

pub use unit_needs::needs;
