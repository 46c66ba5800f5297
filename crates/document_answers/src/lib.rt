//! The answers to what an editor asks at a place of a document, over the folders of its documents.
#![tactic(auto)]

mod answers;
mod over;
mod refused;
mod renaming;
mod value;

pub use answers::DocumentAnswers;
