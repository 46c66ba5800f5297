//! A renaming that is watched: its names, and its footprint as a list and as a set.
#![tactic(auto)]

mod places;
mod watched;

pub use places::set_of;
pub use watched::Watched;
