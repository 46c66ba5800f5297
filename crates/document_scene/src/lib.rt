//! The documents and the places of a folder, as an answer to an editor has them.
#![tactic(auto)]

mod changes;
mod places;
mod ranges;
mod scene;
mod uri;

pub use changes::document_edits;
pub use places::{highlights_of, location_at, locations_of, range_at};
pub use scene::Scene;
