//! What a message holds.

use crate::kinds::Kind;
use rotor_base::Row;

/// A stretch of a source: the source's name, its line and column, both from 1, its length in bytes, and the bytes of
/// its line before it and from it on, without the line's end.
#[derive(Drop)]
pub struct Spot {
    pub file: Row<u8>,
    pub line: u32,
    pub column: u32,
    pub width: u32,
    pub before: Row<u8>,
    pub behind: Row<u8>,
}

/// What is said of another place.
#[derive(Drop)]
pub struct Note {
    pub at: Spot,
    pub text: Row<u8>,
}

/// How grave a message is.
#[derive(Clone, Copy)]
pub enum Severity {
    Error,
    Warning,
    Info,
}

/// A message: its sentence, the stretch that it is about, what is said of other places, and what can be done.
#[derive(Drop)]
pub struct Message {
    pub severity: Severity,
    pub kind: Kind,
    pub text: Row<u8>,
    pub at: Option<Spot>,
    pub notes: Row<Note>,
    pub help: Option<Row<u8>>,
}
