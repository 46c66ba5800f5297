//! The parts of a row.

use rotor_base::{Goal, Memory, Place};
use row_pieces::{decode_bytes, read_number};
use std::alloc::Global;

/// The numbers and the words of a row.
#[derive(Drop)]
pub struct Row {
    numbers: Vec<u32>,
    words: Vec<Vec<u8>>,
}

impl Row {
    /// The row with these numbers and words.
    pub fn new(alloc: Global, numbers: &str, words: &str) -> Result<Self, Memory> {
        let mut list = Vec::new(alloc);
        for word in numbers.split(' ') {
            list.push(read_number(word))?;
        }
        let mut all = Vec::new(alloc);
        for word in words.split(' ') {
            all.push(decode_bytes(alloc, word)?)?;
        }
        Ok(Row {
            numbers: list,
            words: all,
        })
    }

    /// The number at an index from 0, or 0.
    pub fn number(&self, index: usize) -> u32 {
        match self.numbers.get(index) {
            Some(number) => *number,
            None => 0,
        }
    }

    /// The token of the number at an index from 0.
    pub fn place(&self, index: usize) -> Place {
        Place {
            file: 0,
            token: self.number(index),
        }
    }

    /// The word at an index from 0, or the empty word.
    pub fn word(&self, index: usize) -> &[u8] {
        match self.words.get(index) {
            Some(word) => word,
            None => b"",
        }
    }

    /// The goal that the word at an index from 0 names. Its place is that of the number behind the index, and the place
    /// behind an outside module is that of the last number.
    pub fn goal(&self, index: usize) -> Goal {
        let place = self.place(index.saturating_add(1));
        match self.word(index) {
            b"declared" => Goal::Decl(place),
            b"outside" => Goal::Outside,
            b"missing" => Goal::Missing,
            b"hidden" => Goal::Hidden,
            b"behind" => Goal::Blur {
                by: place,
                passed: 1,
                behind: Some(self.place(3)),
            },
            _ => Goal::Blur {
                by: place,
                passed: 1,
                behind: None,
            },
        }
    }
}
