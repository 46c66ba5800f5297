//! The messages of folders that are not loaded, by what the folder has.
#![tactic(auto)]

mod doubled;
mod folder;
mod listed;
mod manifest;
mod reason;
mod unit_lines;

pub use folder::folder_message;
pub use reason::reason_of;
