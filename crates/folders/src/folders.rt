//! Folders by their paths.
ghost use Rattle.std.specs.Prelude.{◌≡◌, ℕ, List, Option, IfOk};
ghost use Rattle.tree_io.specs.Outside.{FileMap};

use rotor_base::Memory;
use std::alloc::Global;
use tree_io::Tree;

/// Folders by their paths. No call changes a file.
pub trait Folders {
    /// A folder.
    type Folder: Tree + Drop;

    /// The map from names to bytes of the folder with this path, if it is modelled.
    ghost content: { Self → List ℕ → Option FileMap };

    /// The folder with this path. If there is none, the calls of the folder fail.
    ///
    /// # Errors
    ///
    /// `Memory` alone.
    fn folder(&self, alloc: Global, path: &str) -> Result<Self::Folder, Memory>
        ensures { IfOk result (λ folder. Self.Folder.content folder ≡ content self.now path.now) };
}
