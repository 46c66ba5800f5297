//! The documents of all folders that an editor holds.
ghost use Rattle.std.specs.Prelude.{◌≡◌, ℕ, List, string_bytes, OnErr, OnOk};
ghost use Rattle.std.specs.Option.{option_copied};
ghost use Rattle.std.specs.FinMap.{empty, insert, remove};

use crate::document::{Document, OpenText};
use crate::documents::Documents;
use rotor_base::Memory;
use std::alloc::Global;
use std::collections::BTreeMap;

/// The documents of all folders that an editor holds, each folder under its path.
#[derive(Drop)]
pub struct Workspace {
    folders: BTreeMap<String, Documents>,
}

impl Workspace {
    ghost use Rattle.open_documents.specs.Documents.{changed_in};
    ghost use Rattle.open_documents.specs.Workspace.{KeepsFolders, SetsFolder, documents_in, documents_or_none};

    /// No document. It takes no memory.
    pub fn new(alloc: Global) -> Self
        ensures { (path : List ℕ) → documents_in result path ≡ empty }
    {
        Workspace {
            folders: BTreeMap::new(alloc),
        }
    }

    /// The documents of a folder; if the editor held none there so far, `None`.
    pub fn folder(&self, path: &str) -> Option<&Documents>
        ensures { documents_or_none (option_copied result) ≡ documents_in self.now path.now }
    {
        self.folders.get(path)
    }

    /// The editor opened a document in a folder.
    ///
    /// # Errors
    ///
    /// `Memory` alone.
    pub fn open(
        &mut self,
        alloc: Global,
        path: String,
        name: String,
        document: Document,
    ) -> Result<(), Memory>
        ensures opened { OnOk result (SetsFolder (string_bytes path) (insert (documents_in self.old (string_bytes path)) (string_bytes name) document) self.old self.new) }
        ensures kept { OnErr result (KeepsFolders self.old self.new) }
    {
        match self.folders.get_mut(path.as_str()) {
            Some(folder) => folder.open(name, document),
            None => {
                let mut folder = Documents::new(alloc);
                folder.open(name, document)?;
                self.folders.insert(path, folder)?;
                Ok(())
            }
        }
    }

    /// The editor changed a document in a folder, to the text of its last change; `None` if there was no change. A
    /// document that was not opened is held from here on, under this URI.
    ///
    /// # Errors
    ///
    /// `Memory` alone.
    pub fn change(
        &mut self,
        alloc: Global,
        path: String,
        name: String,
        uri: String,
        version: Option<i64>,
        text: Option<OpenText>,
    ) -> Result<(), Memory>
        ensures changed { OnOk result (SetsFolder (string_bytes path) (changed_in (documents_in self.old (string_bytes path)) (string_bytes name) uri version text) self.old self.new) }
        ensures kept { OnErr result (KeepsFolders self.old self.new) }
    {
        match self.folders.get_mut(path.as_str()) {
            Some(folder) => folder.change(name, uri, version, text),
            None => {
                let mut folder = Documents::new(alloc);
                folder.change(name, uri, version, text)?;
                self.folders.insert(path, folder)?;
                Ok(())
            }
        }
    }

    /// The editor closed a document in a folder.
    pub fn close(&mut self, path: &str, name: &str)
        ensures { SetsFolder path.now (remove (documents_in self.old path.now) name.now) self.old self.new }
    {
        if let Some(folder) = self.folders.get_mut(path) {
            folder.close(name);
        }
    }
}
