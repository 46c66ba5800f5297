//! The worked rows of shapes: sketches of shapes as they are in a table, and the tests.
#![tactic(auto)]

#[cfg(test)]
mod sketch;

#[cfg(test)]
pub use sketch::{Piece, Sketch, decl, entries, make_plain, place};

#[cfg(test)]
mod tests;
