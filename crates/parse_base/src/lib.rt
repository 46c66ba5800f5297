//! Refused forms, the nesting of a file, and the longest pattern from a token.
#![tactic(auto)]

mod depth;
mod error;
mod forms;
mod parse;

pub use depth::{deep_token, scan_depth};
pub use error::ParseError;
pub use forms::scan_forms;
pub use parse::{MAX_NESTED, parse_pat};
