//! The folders of the rows, and what they hold.
use apply_journal::{Plan, make_plan};
use project_load::load;
use rotor_base::{Memory, Row, SourceFile, Text};
use std::alloc::Global;
use std::process::Abort;
use std::test::Fail;
use tree_io::{MemTree, have_distinct_names};

/// The files of row body-and-interface, before and after `rename M.f g`.
pub const OLD_BODY: (&str, &str) = ("m.ml", "let f x = x");

pub const OLD_FACE: (&str, &str) = ("m.mli", "val f : int -> int");

pub const NEW_BODY: (&str, &str) = ("m.ml", "let g x = x");

pub const NEW_FACE: (&str, &str) = ("m.mli", "val g : int -> int");

pub const OLD: [(&str, &str); 2] = [OLD_BODY, OLD_FACE];

pub const NEW: [(&str, &str); 2] = [NEW_BODY, NEW_FACE];

/// The body and the interface after a write that failed: the first half of the new bytes.
pub const HALF_BODY: (&str, &str) = ("m.ml", "let g");

pub const HALF_FACE: (&str, &str) = ("m.mli", "val g : i");

/// The plan of the new files.
pub const PLAN: &str =
    "rotor-plan 1\nfiles 2\nm.ml 11\nlet g x = x\nm.mli 18\nval g : int -> int\nend\n";

/// Files of these names and texts.
pub fn sources(alloc: Global, texts: &[(&str, &str)]) -> Result<Vec<SourceFile>, Memory> {
    let mut files = Vec::new(alloc);
    for (name, text) in texts {
        files.push(SourceFile {
            name: Text::from_string(String::from_str(alloc, name)?),
            bytes: Row::from_vec(text.as_bytes().to_vec(alloc)?),
        })?;
    }
    Ok(files)
}

/// A folder of these files, whose calls with these numbers fail.
pub fn tree_of(
    rt: &impl Abort,
    alloc: Global,
    texts: &[(&str, &str)],
    failing: &[u32],
) -> Result<MemTree, Memory> {
    let files = sources(alloc, texts)?;
    assert!(rt; have_distinct_names(&files), "a name twice");
    MemTree::new(alloc, files, failing.to_vec(alloc)?)
}

/// The plan of the new files.
pub fn plan_of(rt: &impl Abort, alloc: Global) -> Result<Plan, Fail> {
    let mut tree = tree_of(rt, alloc, &NEW, &[])?;
    let files = load(alloc, &mut tree)?;
    assert!(rt; files.entries().len() == 2);
    Ok(make_plan(alloc, &files, &[0, 1])?)
}

/// Whether these are the files of these names and texts, in order.
pub fn are_files(files: &[SourceFile], texts: &[(&str, &str)]) -> bool {
    if files.len() != texts.len() {
        return false;
    }
    for (file, (name, text)) in files.iter().zip(texts.iter()) {
        let is_same = file.name.as_str() == *name && file.bytes.as_slice() == text.as_bytes();
        if !is_same {
            return false;
        }
    }
    true
}

/// Whether a folder holds a file with this text; `None` is no file.
pub fn holds(tree: &MemTree, name: &str, text: Option<&str>) -> bool {
    match (tree.get(name), text) {
        (None, None) => true,
        (Some(bytes), Some(text)) => bytes == text.as_bytes(),
        _ => false,
    }
}

/// Whether a folder holds these files, among others.
pub fn holds_all(tree: &MemTree, texts: &[(&str, &str)]) -> bool {
    for (name, text) in texts {
        if !holds(tree, name, Some(text)) {
            return false;
        }
    }
    true
}
