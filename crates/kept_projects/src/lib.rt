//! A project that is kept from one question to the next, so that the same files are read and resolved once.
#![tactic(auto)]

mod kept;
mod open;
mod resolved;
mod same;
mod tokens;

pub use kept::KeptProject;
pub use open::{RefusedProject, open_project};
pub use tokens::read_of;
