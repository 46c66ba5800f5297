//! A folder in memory, given by lines.

use project_load::load;
use rotor_base::{Files, LoadError, Row, SourceFile, Text};
use std::alloc::{AllocError, Global};
use tree_io::{MemTree, have_distinct_names};

/// A file of a folder.
#[derive(Drop)]
struct File {
    name: String,
    text: String,
}

/// The files of a folder, in the order of their lines.
#[derive(Drop)]
pub struct Folder {
    files: Vec<File>,
}

impl Folder {
    pub fn new(alloc: Global) -> Self {
        Folder {
            files: Vec::new(alloc),
        }
    }

    /// Takes a line: `file NAME`; of the last file `>TEXT`, and `|LINE` with a line feed. Every other line is passed
    /// over.
    pub fn read(&mut self, alloc: Global, line: &str) -> Result<(), AllocError> {
        if let Some(text) = line.strip_prefix('>') {
            return self.add(text);
        }
        if let Some(text) = line.strip_prefix('|') {
            self.add(text)?;
            return self.add("\n");
        }
        let Some(("file", name)) = line.split_once(' ') else {
            return Ok(());
        };
        self.files.push(File {
            name: String::from_str(alloc, name)?,
            text: String::new(alloc),
        })?;
        Ok(())
    }

    fn add(&mut self, text: &str) -> Result<(), AllocError> {
        if let Some(file) = self.files.last_mut() {
            file.text.push_str(text)?;
        }
        Ok(())
    }

    /// The files of the project that the folder loads as. The errors are those of a load.
    pub fn load(&self, alloc: Global) -> Result<Files, LoadError> {
        let mut sources = Vec::new(alloc);
        for file in &self.files {
            sources.push(SourceFile {
                name: Text::from_string(String::from_str(alloc, file.name.as_str())?),
                bytes: Row::from_vec(file.text.as_bytes().to_vec(alloc)?),
            })?;
        }
        load_sources(alloc, sources)
    }
}

/// The files of the project that some files load as. If two have one name, the error is `Read`; the others are those of
/// a load.
pub fn load_sources(alloc: Global, sources: Vec<SourceFile>) -> Result<Files, LoadError> {
    if !have_distinct_names(&sources) {
        return Err(LoadError::Read);
    }
    let mut tree = MemTree::new(alloc, sources, Vec::new(alloc))?;
    load(alloc, &mut tree)
}
