//! Folders in memory.
ghost use Rattle.std.specs.Prelude.{◌≡◌, [], IfNone, IfOk, IfSome, Some};
ghost use Rattle.tree_io.specs.MemTree.{mem_files};
ghost use Rattle.tree_io.specs.Store.{HasDistinctNames, source_map};

use crate::folders::Folders;
use rotor_base::{Memory, Row, SourceFile, Text};
use std::alloc::Global;
use tree_io::MemTree;

/// A folder in memory: its path and its files, whose names are distinct.
#[derive(Drop)]
pub struct MemFolder {
    pub path: Text,
    pub files: Vec<SourceFile>,
    ghost distinct: { HasDistinctNames files.items },
}

/// Folders in memory. Of two with one path the first counts.
#[derive(Drop)]
pub struct MemFolders {
    folders: Vec<MemFolder>,
}

impl MemFolders {
    ghost use Rattle.folders.specs.MemFolders.{files_at, mem_folders};

    /// These folders.
    pub fn new(folders: Vec<MemFolder>) -> Self
        ensures { mem_folders result ≡ folders.items }
    {
        MemFolders { folders }
    }

    /// The folder with this path.
    fn find_folder(&self, path: &str) -> Option<&MemFolder>
        ensures found { IfSome result (λ folder. folder.now.files.items ≡ files_at path.now (mem_folders self.now)) }
        ensures none { IfNone result (files_at path.now (mem_folders self.now) ≡ []) }
    {
        for folder in &self.folders {
            if folder.path.as_str() == path {
                return Some(folder);
            }
        }
        None
    }
}

impl Folders for MemFolders {
    ghost use Rattle.folders.specs.MemFolders.{files_at, mem_folders};

    type Folder = MemTree;

    ghost content = { λ folders path. Some (source_map (files_at path (mem_folders folders))) };

    fn folder(&self, alloc: Global, path: &str) -> Result<MemTree, Memory> {
        match self.find_folder(path) {
            Some(folder) => {
                let files = copy_all(alloc, &folder.files)?;
                MemTree::new(alloc, files, Vec::new(alloc))
            }
            None => missing_folder(alloc),
        }
    }
}

/// A folder without files, whose first call fails.
fn missing_folder(alloc: Global) -> Result<MemTree, Memory>
    ensures { IfOk result (λ tree. mem_files tree ≡ source_map []) }
{
    let failing = vec![in alloc; 1]?;
    MemTree::new(alloc, Vec::new(alloc), failing)
}

/// The same files.
fn copy_all(alloc: Global, files: &[SourceFile]) -> Result<Vec<SourceFile>, Memory>
    ensures { IfOk result (λ copies. copies.items ≡ files.now) }
{
    let mut copies = Vec::new(alloc);
    for file in files {
        copies.push(copy_of(alloc, file)?)?;
    }
    Ok(copies)
}

/// The same file.
fn copy_of(alloc: Global, file: &SourceFile) -> Result<SourceFile, Memory>
    ensures { IfOk result (λ copy. copy ≡ file.now) }
{
    Ok(SourceFile {
        name: Text::from_string(String::from_str(alloc, file.name.as_str())?),
        bytes: Row::from_vec(file.bytes.as_slice().to_vec(alloc)?),
    })
}
