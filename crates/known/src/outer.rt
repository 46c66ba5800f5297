//! Folders that can be asked for a name which they lack.
ghost use Rattle.std.specs.Prelude.{◌≡◌, refl, List, ℕ, IfOk, IfSome, is_some};
ghost use Rattle.std.specs.FinMap.{get};
ghost use Rattle.tree_io.specs.Outside.{IsFront};

use std::alloc::Global;
use tree_io::{Disk, HostTree, SoundTree, Tree, TreeError};

/// A folder that can be asked for a name which it lacks, as the system's folder can.
pub trait Outer: Tree {
    /// The first `limit` bytes of the file of this name; if it is shorter, all of it. It changes nothing.
    ///
    /// # Errors
    ///
    /// `Failed` if the folder failed or has no file of this name, and `Memory`.
    fn look(&mut self, alloc: Global, name: &str, limit: u32) -> Result<Vec<u8>, TreeError>
        ensures bytes { IfOk result (λ bytes. IfSome (Self.content self.old) (λ files. IsFront limit (get files name.now) bytes.items)) }
        ensures content { Self.content self.new ≡ Self.content self.old };

    /// The content of each folder of this type is modelled, or of none.
    ghost modelled: { (one other : Self) → is_some (Self.content one) ≡ is_some (Self.content other) };
}

impl<D: Disk> Outer for HostTree<D> {
    ghost modelled = { λ _ _. refl };

    fn look(&mut self, alloc: Global, name: &str, limit: u32) -> Result<Vec<u8>, TreeError> {
        self.read(alloc, name, limit)
    }
}

impl Outer for SoundTree {
    ghost modelled = { λ _ _. refl };

    fn look(&mut self, alloc: Global, name: &str, limit: u32) -> Result<Vec<u8>, TreeError> {
        match self.get(name) {
            None => Err(TreeError::Failed),
            Some(_) => self.read(alloc, name, limit),
        }
    }
}
