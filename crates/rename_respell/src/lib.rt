//! The sources of a project, with other names for some of its binders.
#![tactic(auto)]

mod calls;
mod source;
mod words;

pub use calls::{respell, respell_read};
