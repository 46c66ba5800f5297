//! A language server over any input and any output: it reads the messages of an editor and writes one response for each
//! request, in order.
#![tactic(auto)]

mod answers;
mod error;
mod message;
mod server;
mod task;
mod texts;

pub use answers::Answers;
pub use error::ServeError;
pub use server::serve;
