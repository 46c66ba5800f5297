//! The documents of a folder that an editor holds.
ghost use Rattle.std.specs.Prelude.{◌≡◌, Some, false, map, string_bytes, IfOk, IfNone, IfSome, OnErr, OnOk};
ghost use Rattle.std.specs.Option.{option_copied, option_map};
ghost use Rattle.std.specs.FinMap.{empty, get, insert, keys, remove};

use crate::document::{Document, OpenText};
use rotor_base::Memory;
use std::alloc::Global;
use std::collections::BTreeMap;

/// The documents of a folder that an editor holds, each under the name of its file.
#[derive(Drop)]
pub struct Documents {
    held: BTreeMap<String, Document>,
}

impl Documents {
    ghost use Rattle.open_documents.specs.Document.{is_known};
    ghost use Rattle.open_documents.specs.Documents.{AreKnown, changed_in, documents};

    /// No document. It takes no memory.
    pub fn new(alloc: Global) -> Self
        ensures { documents result ≡ empty }
    {
        Documents {
            held: BTreeMap::new(alloc),
        }
    }

    /// The document of this name; if the editor holds none, `None`.
    pub fn get(&self, name: &str) -> Option<&Document>
        ensures { option_copied result ≡ get (documents self.now) name.now }
    {
        self.held.get(name)
    }

    /// The editor opened a document. If it held one of this name, that one goes.
    ///
    /// # Errors
    ///
    /// `Memory` alone.
    pub fn open(&mut self, name: String, document: Document) -> Result<(), Memory>
        ensures opened { OnOk result (documents self.new ≡ insert (documents self.old) (string_bytes name) document) }
        ensures kept { OnErr result (documents self.new ≡ documents self.old) }
    {
        self.held.insert(name, document)?;
        Ok(())
    }

    /// The editor changed a document, to the text of its last change; `None` if there was no change. A document that
    /// was not opened is held from here on, under this URI.
    ///
    /// # Errors
    ///
    /// `Memory` alone.
    pub fn change(
        &mut self,
        name: String,
        uri: String,
        version: Option<i64>,
        text: Option<OpenText>,
    ) -> Result<(), Memory>
        ensures changed { OnOk result (documents self.new ≡ changed_in (documents self.old) (string_bytes name) uri version text) }
        ensures kept { OnErr result (documents self.new ≡ documents self.old) }
    {
        match self.held.get_mut(name.as_str()) {
            Some(document) => {
                document.change(version, text);
                Ok(())
            }
            None => {
                let text = text.unwrap_or(OpenText::Unknown);
                self.open(name, Document { uri, version, text })
            }
        }
    }

    /// The editor closed a document. If it held none of this name, nothing changes.
    pub fn close(&mut self, name: &str)
        ensures { documents self.new ≡ remove (documents self.old) name.now }
    {
        let _ = self.held.remove(name);
    }

    /// The first name whose document has a text that is not known.
    pub fn first_unknown(&self) -> Option<&str>
        ensures unknown { IfSome result (λ name. option_map is_known (get (documents self.now) name.now) ≡ Some false) }
        ensures known { IfNone result (AreKnown (documents self.now)) }
    {
        for (name, document) in self.held.iter() {
            if !document.is_known() {
                return Some(name.as_str());
            }
        }
        None
    }

    /// The names, in byte order.
    pub(crate) fn names(&self, alloc: Global) -> Result<Vec<String>, Memory>
        ensures { IfOk result (λ names. map string_bytes names.items ≡ keys (documents self.now)) }
    {
        let mut names = Vec::new(alloc);
        for name in self.held.keys() {
            names.push(String::from_str(alloc, name.as_str())?)?;
        }
        Ok(names)
    }
}
