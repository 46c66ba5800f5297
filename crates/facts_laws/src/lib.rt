//! What holds of the values, the links, the groups and the footprints of every project.
#![tactic(auto)]

mod laws;

pub use laws::{footprints_part, good_repeats_none, links_are_few, values_are_declared};
