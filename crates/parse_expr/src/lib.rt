//! Sequence expressions.
#![tactic(auto)]

mod levels;
mod parse;
mod readers;
mod reading;

pub use parse::{MAX_DEEPER, parse_seq};
pub use reading::read;
