//! The places of a project's values, kept beside its trees: what is at a place, and which places are binders.
#![tactic(auto)]

mod filing;
mod placed;

pub use filing::number_of_file;
pub use placed::PlacedProject;
