//! The program over a folder that is seen once.
#![tactic(auto)]

mod ended;
mod seeing;
mod turns;

pub use ended::Ended;
pub use turns::{run_command, run_over};
