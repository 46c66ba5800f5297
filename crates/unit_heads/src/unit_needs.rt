//! What a unit needs.

ghost use Rattle.std.specs.Prelude.{◌≡◌, IfOk};
ghost use Rattle.ml_trees.specs.View.{view_part_of, view_unit};
ghost use Rattle.unit_heads.specs.Heads.{file_heads, unit_heads};

use crate::heads::with_heads;
use ml_trees::{FileTree, UnitTree};
use rotor_base::{Memory, Name};
use std::alloc::Global;

/// The heads of the module paths in the trees of a unit that are not bound there, as often as they occur there, in the
/// order of words: the body's and then the interface's (the manual's chapters on names and module expressions).
/// `Memory` is the only error.
pub fn needs(alloc: Global, unit: &UnitTree) -> Result<Vec<Name>, Memory>
    ensures { IfOk result (λ names. names.items ≡ unit_heads (view_unit unit.now)) }
{
    let found = add_file(alloc, Vec::new(alloc), &unit.body)?;
    add_file(alloc, found, &unit.face)
}

/// The heads that were found, and then those of a file.
fn add_file(alloc: Global, found: Vec<Name>, file: &Option<FileTree>) -> Result<Vec<Name>, Memory>
    ensures { IfOk result (λ heads. heads.items ≡ file_heads found.items (view_part_of file.now)) }
{
    match file {
        None => Ok(found),
        Some(file) => with_heads(alloc, found, file),
    }
}
