//! The answers of the language server, as values and as JSON.
#![tactic(auto)]

mod answer;
mod changes;
mod places;
mod response;
mod started;

pub use answer::{
    Answer, DocumentEdits, Encoding, ErrorCode, Failure, Highlight, Id, Location, Reply,
};
pub use response::response_text;
