//! The sentences of the places at which OCaml may read a folder otherwise: warnings, which refuse nothing.
#![tactic(auto)]

mod counted;
mod folder;
mod warning;

pub use counted::counted_differences;
pub use folder::warnings;
