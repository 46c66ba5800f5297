//! Rows that print what the readers make of a text.
//!
//! A line `>TEXT` adds to the text, `|LINE` adds with a line feed, `times N TEXT` adds N times, and `byte N` adds a
//! byte. Every other line is a request, `KIND` or `KIND TEXT`: it adds TEXT, is answered by a line, and the text is
//! empty again. The kinds are in [`readings::answer_request`].
#![tactic(auto)]

mod expression_outline;
mod expressions;
mod files;
mod module_outline;
mod outline;
mod pattern_outline;
mod patterns;
mod readings;
mod refusals;

use readings::answer_request;
use rotor_base::Memory;
use row_pieces::read_number;
use std::alloc::Global;

/// The text that is read.
#[derive(Drop)]
pub struct TreeRows {
    text: Vec<u8>,
}

impl TreeRows {
    /// The empty text.
    pub fn new(alloc: Global) -> Self {
        TreeRows {
            text: Vec::new(alloc),
        }
    }

    /// What a line prints: nothing, if it adds to the text alone. `Memory` is the only error.
    pub fn answer_line(&mut self, alloc: Global, line: &str) -> Result<String, Memory> {
        if let Some(piece) = line.strip_prefix('>') {
            self.text.extend_from_slice(piece.as_bytes())?;
            return Ok(String::new(alloc));
        }
        if let Some(piece) = line.strip_prefix('|') {
            self.text.extend_from_slice(piece.as_bytes())?;
            self.text.push(b'\n')?;
            return Ok(String::new(alloc));
        }
        match line.split_once(' ') {
            Some(("times", rest)) => self.add_times(rest)?,
            Some(("byte", number)) => self.text.push(number.parse::<u8>().unwrap_or(0))?,
            Some((kind, rest)) => {
                self.text.extend_from_slice(rest.as_bytes())?;
                return self.answer_request(alloc, kind);
            }
            None => return self.answer_request(alloc, line),
        }
        Ok(String::new(alloc))
    }

    /// Adds the piece of `N PIECE` to the text, N times.
    fn add_times(&mut self, rest: &str) -> Result<(), Memory> {
        if let Some((count, piece)) = rest.split_once(' ') {
            for _ in 0..read_number(count) {
                self.text.extend_from_slice(piece.as_bytes())?;
            }
        }
        Ok(())
    }

    /// The line that answers a request. It leaves the text empty.
    fn answer_request(&mut self, alloc: Global, kind: &str) -> Result<String, Memory> {
        let mut answer = answer_request(alloc, kind, self.text.as_slice())?;
        answer.push('\n')?;
        self.text.clear();
        Ok(answer)
    }
}
