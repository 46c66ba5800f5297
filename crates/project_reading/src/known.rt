//! Trees of sources that stay, which need not be read again.

ghost use Rattle.std.specs.Prelude.{◌≡◌, IfOk, IfSome, List, Some, map, slice_get, true};
ghost use Rattle.rotor_base.specs.declared.source.SourceFile.{SourceFile};
ghost use Rattle.ml_trees.specs.View.{view_file, view_part_of, view_project};
ghost use Rattle.project_reading.specs.Known.{AreKnown, IsReadAs, file_of};
ghost use Rattle.project_reading.specs.Reads.{Reads};

use crate::project::Read;
use ml_trees::{FileTree, Project, UnitTree};
use rotor_base::{Files, Memory, SourceFile};
use std::alloc::Global;

/// What some sources are read as, by the sources' numbers.
pub struct KnownTrees {
    trees: Vec<Option<FileTree>>,
}

// Written by hand, so that a crate that drops it proves nothing of trees.
impl Drop for KnownTrees {
    fn drop(self) {
        let KnownTrees { trees: _ } = self;
    }
}

impl KnownTrees {
    /// No tree is known.
    pub fn new(alloc: Global) -> Self
        ensures { (sources : List SourceFile) → AreKnown sources result }
    {
        KnownTrees {
            trees: Vec::new(alloc),
        }
    }

    /// The trees of a project whose sources are the same in other files. The caller ensures that the old files are read
    /// as the project. `Memory` is the only error.
    pub fn from_project(
        alloc: Global,
        project: Project,
        olds: &Files,
        news: &Files,
    ) -> Result<Self, Memory>
        requires { Reads olds.now (view_project project) }
        ensures { IfOk result (λ known. AreKnown news.now.entries known) }
    {
        let olds = olds.entries();
        let news = news.entries();
        let mut known = make_room(alloc, news.len())?;
        let mut left = project;
        while let Some(unit) = left.units.pop() {
            known.keep_parts(unit, olds, news);
        }
        Ok(known)
    }

    /// What [`KnownTrees::from_project`] returns, of the project that was read.
    pub fn from_read(
        alloc: Global,
        read: Read<'_>,
        olds: &Files,
        news: &Files,
    ) -> Result<Self, Memory>
        requires { Reads olds.now (view_project read.project) }
        ensures { IfOk result (λ known. AreKnown news.now.entries known) }
    {
        KnownTrees::from_project(alloc, read.project, olds, news)
    }

    /// Keeps the trees of a unit whose sources are the same.
    fn keep_parts(&mut self, unit: UnitTree, olds: &[SourceFile], news: &[SourceFile])
        requires body { IfSome unit.body (λ tree. IsReadAs olds.now (file_of (view_file tree)) (view_file tree)) }
        requires face { IfSome unit.face (λ tree. IsReadAs olds.now (file_of (view_file tree)) (view_file tree)) }
        requires known { AreKnown news.now self.old }
        ensures { AreKnown news.now self.new }
    {
        let mut unit = unit;
        self.keep_tree(unit.body.take(), olds, news);
        self.keep_tree(unit.face.take(), olds, news);
    }

    /// Keeps a tree, if there is one and its source is the same.
    fn keep_tree(&mut self, tree: Option<FileTree>, olds: &[SourceFile], news: &[SourceFile])
        requires read { IfSome tree (λ tree. IsReadAs olds.now (file_of (view_file tree)) (view_file tree)) }
        requires known { AreKnown news.now self.old }
        ensures { AreKnown news.now self.new }
    {
        if let Some(tree) = tree {
            let number = file_number(&tree) as usize;
            if number < self.trees.len() && is_same_at(olds, news, number) {
                self.trees[number] = Some(tree);
            }
        }
    }

    /// Takes the tree of a source out, if it is known.
    pub(crate) fn take(&mut self, number: usize) -> Option<FileTree>
        ensures taken { IfSome result (λ tree. slice_get (map view_part_of self.old.trees.items) number ≡ Some (Some (view_file tree))) }
        ensures known { (sources : List SourceFile) → AreKnown sources self.old → AreKnown sources self.new }
    {
        if number < self.trees.len() {
            self.trees[number].take()
        } else {
            None
        }
    }
}

/// No tree is known of so many sources.
fn make_room(alloc: Global, count: usize) -> Result<KnownTrees, Memory>
    ensures { IfOk result (λ known. (sources : List SourceFile) → AreKnown sources known) }
{
    let mut trees = Vec::new(alloc);
    for _ in 0..count {
        trees.push(None)?;
    }
    Ok(KnownTrees { trees })
}

/// The number of a tree's file.
fn file_number(tree: &FileTree) -> u32
    ensures { result ≡ file_of (view_file tree.now) }
{
    match tree {
        FileTree::Body(file, _) => *file,
        FileTree::Face(file, _) => *file,
    }
}

/// Whether two lists have the same source at a position.
fn is_same_at(olds: &[SourceFile], news: &[SourceFile], at: usize) -> bool
    ensures { result ≡ true → slice_get olds.now at ≡ slice_get news.now at }
{
    match (olds.get(at), news.get(at)) {
        (Some(old), Some(new)) => is_same_source(old, new),
        (Some(_), None) => false,
        (None, Some(_)) => false,
        (None, None) => false,
    }
}

/// Whether this is the same source.
fn is_same_source(one: &SourceFile, other: &SourceFile) -> bool
    ensures { result ≡ true → one.now ≡ other.now }
{
    one.name.as_str() == other.name.as_str() && one.bytes.as_slice() == other.bytes.as_slice()
}
