//! The session of an editor: what follows from each of its messages.
#![tactic(auto)]

mod laws;
mod notices;
mod session;
mod state;
mod task;

pub use laws::{notifications_are_not_answered, requests_are_answered_once};
pub use session::Session;
pub use state::State;
pub use task::{Fault, Reply, Task};
