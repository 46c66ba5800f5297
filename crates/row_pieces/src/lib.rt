//! The pieces of a row. A row is a line. `|` separates its pieces, and texts are percent-encoded.
#![tactic(auto)]

mod pieces;

pub use pieces::{cut_pieces, decode_bytes, decode_source, decode_text, encode_bytes, read_number};
