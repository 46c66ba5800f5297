//! What the files of a project are read as and resolved to: its survey.
#![tactic(auto)]

mod answer;
mod binders;
mod calls;
mod laws;

pub use answer::{Binder, Survey};
pub use binders::list_binders;
pub use calls::survey;
pub use laws::listed_are_binders;
