//! The program of ROTOR over any folder and any output.
#![tactic(auto)]

mod top;

pub use command_replies::{Reply, Status, replies_are_one};
pub use top::rotor;
