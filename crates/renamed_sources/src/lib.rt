//! What the sources of a renaming are: their names, their bytes if nothing is renamed, and their names of values.
#![tactic(auto)]

mod laws;

pub use laws::{
    names_are_value_names, nothing_is_over, renamed_keep_names, sources_can_be_respelled,
    sources_without_hits_stay,
};
