//! The reply to the words of a command: the status, the text and the writes that it decides before anything is written.
#![tactic(auto)]

mod batch;
mod check;
mod deciding;
mod folder;
mod laws;
mod recalled;
mod recover;
mod rename;
mod reply;
mod sample;
mod shape;
mod status;
mod verify;
mod writes;
mod writing;

pub use deciding::decide;
pub use laws::replies_are_one;
pub use recalled::recall_laws;
pub use reply::Reply;
pub use status::Status;
