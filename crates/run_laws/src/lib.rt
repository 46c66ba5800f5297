//! What more fuel changes of a bounded run of a project.
#![tactic(auto)]

mod laws;

pub use laws::runs_go_on;
