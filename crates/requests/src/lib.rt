//! The messages of an editor (Language Server Protocol 3.17), read from JSON.
#![tactic(auto)]

mod asked;
mod client;
mod json;
mod message;
mod method;
mod notice;
mod spot;

pub use asked::{Query, Request, RequestError};
pub use client::{Client, Encoding};
pub use json::read_json;
pub use message::{Id, Message, message_of};
pub use notice::{Change, Notification};
pub use spot::Spot;
