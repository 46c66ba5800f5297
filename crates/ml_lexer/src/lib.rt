//! The lexer: it cuts a file of bytes into lexemes, or returns the first fault.
#![tactic(auto)]

mod bytes;
mod error;
mod laws;
mod number;
mod piece;
mod quotes;
mod scan;
mod trivia;

pub use bytes::{byte_at, front, is_identifier, skip};
pub use error::LexError;
pub use laws::{
    lexemes_are_in_order, lexemes_are_whole, names_between, one_cutting, replaced_names,
    respelled_back,
};
pub use quotes::char_len;
pub use scan::lex;
pub use trivia::part_len;
