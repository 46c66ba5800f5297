//! The folders of the system.
ghost use Rattle.std.specs.Prelude.{None};

use crate::folder_disk::FolderDisk;
use crate::folders::Folders;
use rotor_base::Memory;
use std::alloc::Global;
use std::fs::File;
use std::rt::Files;
use tree_io::HostTree;

/// The folders of the system. Their content is not modelled. They are listed and read, and never written.
#[derive(Drop)]
pub struct HostFolders<'a, R> {
    rt: &'a R,
}

impl<'a, R: Files<File = File>> HostFolders<'a, R> {
    /// The folders of the system.
    pub fn new(rt: &'a R) -> Self {
        HostFolders { rt }
    }
}

impl<'a, R: Files<File = File>> Folders for HostFolders<'a, R> {
    type Folder = HostTree<FolderDisk<'a, R>>;

    ghost content = { λ _ _. None };

    fn folder(&self, alloc: Global, path: &str) -> Result<Self::Folder, Memory> {
        let disk = FolderDisk::new(alloc, self.rt, path)?;
        Ok(HostTree::from_disk(alloc, disk))
    }
}
