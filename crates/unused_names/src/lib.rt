//! What changes in a project if a footprint takes a name that nothing has.
#![tactic(auto)]

mod laws;

pub use laws::unused_names_are_apart;
