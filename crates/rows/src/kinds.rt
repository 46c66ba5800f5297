//! The kinds of rows.

use call_rows::answer_row as answer_call;
use command_rows::CommandRows;
use folder_rows::answer_row as answer_folder;
use resolution_rows::ResolutionRows;
use rotor_base::Memory;
use std::alloc::Global;
use text_rows::answer_row as answer_text;
use tree_rows::TreeRows;

/// The rows of a kind. A row of commands, trees or resolutions has lines, of which some are read already.
#[derive(Drop)]
pub enum Rows {
    Commands(CommandRows),
    Trees(TreeRows),
    Resolutions(ResolutionRows),
    Texts,
    Folders,
    Calls,
    Unknown,
}

impl Rows {
    /// The rows of the kind of this name, of which no line is read.
    pub fn new(alloc: Global, kind: &str) -> Self {
        match kind {
            "commands" => Rows::Commands(CommandRows::new(alloc)),
            "trees" => Rows::Trees(TreeRows::new(alloc)),
            "resolutions" => Rows::Resolutions(ResolutionRows::new(alloc)),
            "texts" => Rows::Texts,
            "folders" => Rows::Folders,
            "calls" => Rows::Calls,
            _ => Rows::Unknown,
        }
    }

    /// What a line prints.
    pub fn answer_line(&mut self, alloc: Global, line: &str) -> Result<String, Memory> {
        match self {
            Rows::Commands(rows) => rows.answer_line(alloc, line),
            Rows::Trees(rows) => rows.answer_line(alloc, line),
            Rows::Resolutions(rows) => rows.answer_line(alloc, line),
            Rows::Texts => answer_text(alloc, line),
            Rows::Folders => answer_folder(alloc, line),
            Rows::Calls => answer_call(alloc, line),
            Rows::Unknown => Ok(String::from_str(alloc, "no kind of rows\n")?),
        }
    }
}
