//! Loading a folder, or the files that a list in it names, as the files of a project.
#![tactic(auto)]

mod entries;
mod error;
mod laws;
mod listed;
mod loading;
mod names;
mod naming;
mod reading;

pub use error::ListError;
pub use laws::{
    lists_are_one, loaded_files_are_a_project, new_sources_are_loaded, old_sources_are_restored,
};
pub use listed::load_list;
pub use loading::load;
pub use names::{is_project_file, source_names};
