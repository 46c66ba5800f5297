//! The value at a place of a source: the token of a cursor, the declaration that it declares or uses, and all places of
//! a footprint.
#![tactic(auto)]

mod cursor;
mod footprint_places;
mod laws;
mod value;

pub use cursor::token_at;
pub use footprint_places::{ValuePlace, places_of};
pub use laws::{footprint_places_are_all, tokens_are_one, values_are_one};
pub use value::{ValueAt, value_at};
