//! A folder with the documents of an editor in place of its files.
ghost use Rattle.std.specs.Prelude.{◌≡◌, ◌≤◌, length, map, string_bytes, IfOk, IfSome, IsErr, IsNone, IsPermutation, IsSome, OnErr};
ghost use Rattle.std.specs.Option.{ForSome};
ghost use Rattle.std.specs.FinMap.{get, keys};
ghost use Rattle.tree_io.specs.Outside.{HasCause, HasFault, IsFront, Spoils};
ghost use Rattle.open_documents.specs.Documents.{AreKnown, documents};

use crate::documents::Documents;
use crate::names::join_names;
use rotor_base::{Failed, Memory};
use std::alloc::Global;
use tree_io::{Tree, TreeError};

/// A folder with the documents of an editor in place of its files, also of those that it lacks. The folder is listed
/// and read, and never written: there is no room for a write, and a write is a counted fault.
#[derive(Drop)]
pub struct OpenTree<'a, T> {
    held: &'a Documents,
    tree: T,
    faults: u64,
    ghost known: { AreKnown (documents held.now) },
}

impl<'a, T: Tree + Drop> OpenTree<'a, T> {
    ghost use Rattle.open_documents.specs.OpenTree.{below, held_documents, open_faults, open_files};

    /// A folder with these documents, whose texts are all known, and with no fault counted.
    pub fn new(held: &'a Documents, tree: T) -> Self
        requires { AreKnown (documents held.now) }
        ensures documents { held_documents result ≡ documents held.now }
        ensures tree { below result ≡ tree }
        ensures faults { open_faults result ≡ 0 }
    {
        OpenTree {
            held,
            tree,
            faults: 0,
        }
    }

    /// The folder below.
    pub fn into_tree(self) -> T
        ensures { result ≡ below self.entry }
    {
        self.tree
    }

    /// The names of the folder and of the documents, each once.
    fn names(&mut self, alloc: Global) -> Result<Vec<String>, TreeError>
        ensures names { IfOk result (λ names. IfSome (open_files T.content self.old) (λ files. IsPermutation (keys files) (map string_bytes names.items))) }
        ensures content { T.content (below self.new) ≡ T.content (below self.old) }
        ensures documents { held_documents self.new ≡ held_documents self.old }
        ensures faults { open_faults self.new ≡ open_faults self.old }
    {
        let names = self.tree.list(alloc)?;
        let more = self.held.names(alloc)?;
        Ok(join_names(names, more)?)
    }

    /// The first bytes of a document, or of a file that is not open.
    fn front(&mut self, alloc: Global, name: &str, limit: u32) -> Result<Vec<u8>, TreeError>
        requires { ForSome (open_files T.content self.old) (λ files. IsSome (get files name.now)) }
        ensures bytes { IfOk result (λ bytes. IfSome (open_files T.content self.old) (λ files. IsFront limit (get files name.now) bytes.items)) }
        ensures limit { IfOk result (λ bytes. length bytes.items ≤ limit) }
        ensures content { T.content (below self.new) ≡ T.content (below self.old) }
        ensures documents { held_documents self.new ≡ held_documents self.old }
        ensures faults { open_faults self.new ≡ open_faults self.old }
    {
        match self.held.get(name) {
            Some(document) => Ok(document.front(alloc, limit)?),
            None => self.tree.read(alloc, name, limit),
        }
    }
}

impl<'a, T: Tree + Drop> Tree for OpenTree<'a, T> {
    ghost use Rattle.open_documents.specs.OpenTree.{below, open_faults, open_files};

    ghost faults = { open_faults };

    ghost content = { open_files T.content };

    ghost room_for = { λ _ _. 0 };

    ghost is_steady = { λ _. ⊥ };

    fn list(&mut self, alloc: Global) -> Result<Vec<String>, TreeError>
        ensures names { IfOk result (λ names. IfSome (open_files T.content self.old) (λ files. IsPermutation (keys files) (map string_bytes names.items))) }
        ensures below { T.content (below self.new) ≡ T.content (below self.old) }
        ensures content { open_files T.content self.new ≡ open_files T.content self.old }
        ensures cause { HasCause (open_faults self.old) (open_faults self.new) result }
    {
        let answer = self.names(alloc);
        count_fault(&mut self.faults, answer)
    }

    fn read(&mut self, alloc: Global, name: &str, limit: u32) -> Result<Vec<u8>, TreeError>
        requires { ForSome (open_files T.content self.old) (λ files. IsSome (get files name.now)) }
        ensures bytes { IfOk result (λ bytes. IfSome (open_files T.content self.old) (λ files. IsFront limit (get files name.now) bytes.items)) }
        ensures limit { IfOk result (λ bytes. length bytes.items ≤ limit) }
        ensures below { T.content (below self.new) ≡ T.content (below self.old) }
        ensures content { open_files T.content self.new ≡ open_files T.content self.old }
        ensures cause { HasCause (open_faults self.old) (open_faults self.new) result }
    {
        let answer = self.front(alloc, name, limit);
        count_fault(&mut self.faults, answer)
    }

    /// There is no room for a write, whatever its length.
    ///
    /// # Errors
    ///
    /// `Memory`, at each call.
    fn room(&mut self, _alloc: Global, _name: &str, _len: u32) -> Result<(), Memory>
        ensures refused { IsErr result }
        ensures same { self.new ≡ self.old }
    {
        Err(Memory)
    }

    /// Writes nothing.
    ///
    /// # Errors
    ///
    /// `Failed` after a counted fault, at each call.
    fn write(&mut self, name: &str, _bytes: &[u8]) -> Result<(), Failed>
        requires fits { ForSome (open_files T.content self.old) (λ _. length _bytes.now ≤ 0) }
        requires placed { ForSome (open_files T.content self.old) (λ files. IsNone (get files name.now) → 1 ≤ 0) }
        ensures refused { IsErr result }
        ensures spoiled { OnErr result (Spoils name.now (open_files T.content self.old) (open_files T.content self.new)) }
        ensures below { T.content (below self.new) ≡ T.content (below self.old) }
        ensures content { open_files T.content self.new ≡ open_files T.content self.old }
        ensures cause { HasFault (open_faults self.old) (open_faults self.new) result }
    {
        self.faults = self.faults.saturating_add(1);
        Err(Failed)
    }
}

/// Counts a fault. A count at the greatest `u64` stays there.
fn count_fault<R>(faults: &mut u64, answer: Result<R, TreeError>) -> Result<R, TreeError>
    ensures answer { result ≡ answer }
    ensures cause { HasCause faults.old faults.new result }
{
    if let Err(TreeError::Failed) = &answer {
        *faults = faults.saturating_add(1);
    }
    answer
}
