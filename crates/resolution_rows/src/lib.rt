//! Rows that print what the calls of resolving return for a folder: facts, looks, faults by both calls, and the sources
//! under a map of names. A folder is given as lines, and each request about it prints one object of JSON.
#![tactic(auto)]

mod facts;
mod faults;
mod folder;
mod looks;
mod pieces;
mod request;
mod respelled;
mod watch;

use folder::Folder;
use request::{Request, answer};
use rotor_base::Memory;
use std::alloc::Global;

/// The folder that is read.
#[derive(Drop)]
pub struct ResolutionRows {
    folder: Folder,
}

impl ResolutionRows {
    /// A folder without a file.
    pub fn new(alloc: Global) -> Self {
        ResolutionRows {
            folder: Folder::new(alloc),
        }
    }

    /// What a line prints: the answer, if it is a request. `end` ends the folder, and every other line is one of the
    /// folder. `Memory` is the only error.
    pub fn answer_line(&mut self, alloc: Global, line: &str) -> Result<String, Memory> {
        if line == "end" {
            self.folder = Folder::new(alloc);
            return Ok(String::new(alloc));
        }
        let Some(request) = Request::read(line) else {
            self.folder.read(alloc, line)?;
            return Ok(String::new(alloc));
        };
        let mut text = answer(alloc, &self.folder, request)?;
        text.push('\n')?;
        Ok(text)
    }
}
