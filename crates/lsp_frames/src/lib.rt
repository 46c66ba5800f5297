//! Messages of the Language Server Protocol, over any reader and any writer. A message is a header that says how many
//! bytes its body has, and the body.
#![tactic(auto)]

mod error;
mod header;
mod laws;
mod reading;
mod writing;

pub use error::FrameError;
pub use laws::{messages_are_read_back, readings_are_one};
pub use reading::{MAX_HEADER, MAX_MESSAGE, read_message};
pub use writing::write_message;
