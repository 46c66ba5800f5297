//! Lines and columns of a text, both ways: the byte that a line and a column name, and the line and column of a byte.
#![tactic(auto)]

mod counting;
mod front;
mod laws;
mod people;
mod walk;

pub use counting::{Counting, Position};
pub use laws::offsets_are_found_again;
pub use walk::{offset_of, position_of, positions_of};
