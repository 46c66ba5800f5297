//! A folder in memory that never fails.
ghost use Rattle.std.specs.Prelude.{◌≡◌, ⊤, Some, None, IfOk, IfSome, IfNone};
ghost use Rattle.std.specs.FinMap.{get};
ghost use Rattle.tree_io.specs.SoundTree.{sound_files};
ghost use Rattle.tree_io.specs.Store.{stored, store_room, source_map, HasDistinctNames};

use crate::store::Store;
use crate::{Tree, TreeError};
use rotor_base::{Failed, Memory, SourceFile};
use std::alloc::Global;

/// A folder in memory. No call of it fails.
#[derive(Drop)]
pub struct SoundTree {
    store: Store,
}

impl SoundTree {
    /// A folder of these files, whose names are distinct.
    ///
    /// # Errors
    ///
    /// `Memory` alone.
    pub fn new(alloc: Global, files: Vec<SourceFile>) -> Result<Self, Memory>
        requires { HasDistinctNames files.items }
        ensures { IfOk result (λ tree. sound_files tree ≡ source_map files.items) }
    {
        Ok(SoundTree {
            store: Store::new(alloc, files)?,
        })
    }

    /// The bytes of a file; if the folder has no file of this name, `None`. It takes no memory.
    pub fn get(&self, name: &str) -> Option<&[u8]>
        ensures found { IfSome result (λ bytes. get (sound_files self.now) name.now ≡ Some bytes.now) }
        ensures missing { IfNone result (get (sound_files self.now) name.now ≡ None) }
    {
        self.store.get(name)
    }
}

impl Tree for SoundTree {
    ghost faults = { λ _. 0 };

    ghost content = { λ tree. Some (stored tree.store) };

    ghost room_for = { λ tree. store_room tree.store };

    ghost is_steady = { λ _. ⊤ };

    fn list(&mut self, alloc: Global) -> Result<Vec<String>, TreeError> {
        Ok(self.store.names(alloc)?)
    }

    fn read(&mut self, alloc: Global, name: &str, limit: u32) -> Result<Vec<u8>, TreeError> {
        Ok(self.store.read(alloc, name, limit)?)
    }

    fn room(&mut self, alloc: Global, name: &str, len: u32) -> Result<(), Memory> {
        self.store.room(alloc, name, len)
    }

    fn write(&mut self, name: &str, bytes: &[u8]) -> Result<(), Failed> {
        self.store.put(name, bytes);
        Ok(())
    }
}
