//! Where a line of a file begins and ends.
#![tactic(auto)]

mod line;

pub use line::line_stretch;
