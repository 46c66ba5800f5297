//! The texts that an editor holds in place of files.
#![tactic(auto)]

mod document;
mod documents;
mod names;
mod open_tree;
mod workspace;

pub use document::{Document, OpenText};
pub use documents::Documents;
pub use open_tree::OpenTree;
pub use workspace::Workspace;
