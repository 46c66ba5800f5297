//! The laws between a renaming of places and the reading of the renamed files.
#![tactic(auto)]

mod laws;

pub use laws::{
    renamed_back_are_the_files, renamed_files_are_cut, renamed_files_are_read,
    watches_give_value_names,
};
