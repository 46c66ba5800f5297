//! The words of the command line, and the commands that they request.
#![tactic(auto)]

mod asked;
mod command;
mod grammar;
mod heard;
mod laws;
mod target;

pub use command::{Command, WordsError, read_words};
pub use laws::undos_are_read;
pub use target::read_target;
