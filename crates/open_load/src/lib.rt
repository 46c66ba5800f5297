//! A folder, loaded with the documents of an editor in place of its files.
#![tactic(auto)]

mod loading;

pub use loading::{OpenFolder, load_open};
