//! The URIs of documents: the file that a URI names, and the URI of a file.
#![tactic(auto)]

mod laws;
mod place;
mod reading;
mod writing;

pub use laws::{readings_are_one, written_uris_name_their_files};
pub use place::FilePlace;
pub use reading::read_uri;
pub use writing::write_uri;
