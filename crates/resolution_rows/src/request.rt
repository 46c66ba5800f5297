//! The requests about a folder, and their answers.

use crate::facts::facts_object;
use crate::faults::faults_object;
use crate::folder::Folder;
use crate::looks::looks_object;
use crate::pieces::make_stopped;
use crate::respelled::respelled_object;
use cli_words::read_target;
use rotor_base::{Files, LoadError, Memory, Outcome, Refusal};
use std::alloc::{AllocError, Global};

/// A request about a folder.
#[derive(Clone, Copy)]
pub enum Request<'a> {
    /// `facts`: references, links, groups and sums.
    Facts,
    /// `looks TARGET NAME`: what the look-ups of the old and of the new name find.
    Looks { target: &'a str, name: &'a str },
    /// `fault TARGET NAME`: the first fault of a renaming, by the renamed project and by the looks.
    Fault { target: &'a str, name: &'a str },
    /// `respell NAME`: the binders, and the sources if all of them take the name.
    Respell { name: &'a str },
}

impl<'a> Request<'a> {
    /// The request of a line, if it is one.
    pub fn read(line: &'a str) -> Option<Self> {
        if line == "facts" {
            return Some(Request::Facts);
        }
        let (kind, words) = line.split_once(' ')?;
        if kind == "respell" {
            return Some(Request::Respell { name: words });
        }
        let (target, name) = words.split_once(' ')?;
        match kind {
            "looks" => Some(Request::Looks { target, name }),
            "fault" => Some(Request::Fault { target, name }),
            _ => None,
        }
    }
}

/// The answer to a request, as JSON. Want of memory is answered as `no memory`.
pub fn answer(alloc: Global, folder: &Folder, request: Request) -> Result<String, AllocError> {
    match answer_in(alloc, folder, request) {
        Ok(text) => Ok(text),
        Err(_) => String::from_str(alloc, "no memory"),
    }
}

fn answer_in(alloc: Global, folder: &Folder, request: Request) -> Result<String, Memory> {
    match folder.load(alloc) {
        Ok(files) => answer_over(alloc, &files, request),
        Err(LoadError::Memory) => Err(Memory),
        Err(error) => make_stopped(alloc, &[], &Outcome::NotLoaded(error)),
    }
}

fn answer_over(alloc: Global, files: &Files, request: Request) -> Result<String, Memory> {
    match object_of(alloc, files, request) {
        Ok(text) => Ok(text),
        Err(Refusal::Memory) => Err(Memory),
        Err(why) => make_stopped(alloc, files.entries(), &Outcome::Refused(why)),
    }
}

fn object_of(alloc: Global, files: &Files, request: Request) -> Result<String, Refusal> {
    match request {
        Request::Facts => facts_object(alloc, files),
        Request::Looks { target, name } => {
            let target = read_target(alloc, target)?;
            looks_object(alloc, files, &target, name)
        }
        Request::Fault { target, name } => {
            let target = read_target(alloc, target)?;
            faults_object(alloc, files, &target, name)
        }
        Request::Respell { name } => respelled_object(alloc, files, name),
    }
}
