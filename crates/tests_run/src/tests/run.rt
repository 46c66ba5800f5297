//! What the tests share: a folder in memory, what it holds, and a run of a command.
use crate::{sources, words};
use rotor_app::{Status, rotor};
use rotor_base::Memory;
use std::alloc::Global;
use std::process::Abort;
use tree_io::{MemTree, Sink, Tree, have_distinct_names};

pub const ONE_LINE: &str = "let x = 1 let y = x + x";

pub const ONE_LINE_NEW: &str = "let z = 1 let y = z + z";

pub const ONE_LINE_TEXT: &str =
    "rename x to z\ndeclaration a.ml#2\nreferences 2\nfiles 1\nundo a.ml#2 x\n";

pub const ONE_LINE_BACK: &str =
    "rename z to x\ndeclaration a.ml#2\nreferences 2\nfiles 1\nundo a.ml#2 z\n";

/// A folder of these files, whose calls with these numbers fail.
pub fn folder(
    rt: &impl Abort,
    alloc: Global,
    files: &[(&str, &str)],
    failing: &[u32],
) -> Result<MemTree, Memory> {
    let files = sources(alloc, files)?;
    assert!(rt; have_distinct_names(&files), "a name is there twice");
    MemTree::new(alloc, files, failing.to_vec(alloc)?)
}

/// Runs a command. It has no clause, so that no proof of a test contains those of `rotor`.
pub fn run_command<T: Tree, S: Sink>(
    alloc: Global,
    list: &[&str],
    tree: &mut T,
    sink: &mut S,
) -> Result<Status, Memory> {
    let list = words(alloc, list)?;
    Ok(rotor(alloc, &list, tree, sink))
}

/// Whether a folder has a file of this name with just this text.
pub fn holds(tree: &MemTree, name: &str, text: &str) -> bool {
    match tree.get(name) {
        Some(bytes) => bytes == text.as_bytes(),
        None => false,
    }
}
