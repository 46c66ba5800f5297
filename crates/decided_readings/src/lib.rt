//! All files are read as a project, or something says why they are not.
#![tactic(auto)]

mod laws;

pub use laws::{files_are_cut, files_are_decided, orders_are_decided, sources_are_decided};
