//! The places of a project at which OCaml may read it otherwise than this reader.
#![tactic(auto)]

mod applied;
mod comments;
mod difference;
mod indexed;
mod late;
mod project;
mod standard;

pub use difference::{Difference, Indexed, Parting};
pub use indexed::module_name;
pub use project::differences;
