//! The messages of refusals with the places that a reading finds: of a source that is not read, where the item begins
//! and where the reading stops; of units that need each other in a circle, where each needs the next.
#![tactic(auto)]

mod blanks;
mod cycle;
mod forms;
mod front;
mod heads;
mod laws;
mod placed;
mod unread;

pub use laws::{fronts_determine_reading, fronts_end_items};
pub use placed::placed_message;
