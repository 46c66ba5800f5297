//! The numbers of files.
ghost use Rattle.std.specs.Prelude.{◌≡◌};
ghost use Rattle.ml_trees.specs.View.{view_file};
ghost use Rattle.module_openings.specs.Sources.{file_of};

use ml_trees::FileTree;

/// The number of a file.
pub fn file_number(tree: &FileTree) -> u32
    ensures { result ≡ file_of (view_file tree.now) }
{
    match tree {
        FileTree::Body(number, _) => *number,
        FileTree::Face(number, _) => *number,
    }
}
