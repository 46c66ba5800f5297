//! A renaming as an editor asks for it: by a place of a source, with the edits that make the new sources.
#![tactic(auto)]

mod accepted;
mod asked;

pub use asked::{EditorRenaming, name_at, rename_at, target_of};
