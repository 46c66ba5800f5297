//! Seeing a folder: it is listed once, and each file that is asked is read once.
ghost use Rattle.std.specs.Prelude.{◌≡◌, ◌≤◌, ℕ, List, length, IfErr, IfOk, IfSome, OnErr, OnOk, is_some};
ghost use Rattle.std.specs.Prelude.{map, string_bytes};
ghost use Rattle.std.specs.List.{list_any};
ghost use Rattle.std.specs.Str.{bytes_eq};
ghost use Rattle.std.specs.FinMap.{get};
ghost use Rattle.tree_io.specs.Outside.{IsFront};
ghost use Rattle.known.specs.Seen.{FrontsOf, IsRead, NamesOf, SeesFile, seen_files, seen_held};

use crate::held::Held;
use crate::known::Known;
use crate::outer::Outer;
use crate::seen::Seen;
use rotor_base::{Failed, Memory};
use std::alloc::Global;
use tree_io::{Tree, TreeError};

/// The names of a folder. No file is read.
///
/// # Errors
///
/// `Failed` after a counted fault of the listing, and `Memory`.
pub fn see_names<T: Tree>(alloc: Global, tree: &mut T) -> Result<Seen, TreeError>
    ensures names { IfOk result (λ seen. NamesOf (T.content tree.new) (seen_files seen)) }
    ensures fronts { IfOk result (λ seen. FrontsOf (T.content tree.new) seen) }
    ensures content { T.content tree.new ≡ T.content tree.old }
{
    let names = tree.list(alloc)?;
    Ok(list_unread(alloc, names)?)
}

/// Files of these names, none of which was read.
fn list_unread(alloc: Global, names: Vec<String>) -> Result<Seen, Memory>
    ensures names { IfOk result (λ seen. (name : List ℕ) → is_some (get (seen_files seen) name) ≡ list_any (bytes_eq name) (map string_bytes names.items)) }
    ensures nothing { IfOk result (λ seen. (name : List ℕ) (limit : ℕ) → IsRead seen name limit → limit ≡ 0) }
{
    let mut seen = Seen::new(alloc);
    for name in names {
        seen.set(name, Held::make_unread(alloc))?;
    }
    Ok(seen)
}

/// Reads the first `limit` bytes of the file of this name; if it is shorter, all of it.
///
/// # Errors
///
/// `Failed` if the folder failed or has no file of this name, and `Memory`. Then no other file is known than before.
pub(crate) fn see_file<T: Outer>(
    alloc: Global,
    name: &str,
    limit: u32,
    tree: &mut T,
    seen: &mut Seen,
) -> Result<(), TreeError>
    ensures sees { OnOk result (SeesFile limit name.now (T.content tree.old) seen.old seen.new) }
    ensures kept { OnErr result ((other : List ℕ) → seen_held seen.new other ≡ seen_held seen.old other) }
    ensures content { T.content tree.new ≡ T.content tree.old }
{
    let bytes = tree.look(alloc, name, limit)?;
    let text = String::from_str(alloc, name)?;
    seen.set(text, Held { bytes, limit })?;
    Ok(())
}

/// A folder of which all that is asked is kept. It was listed before. A read goes to the folder, unless the file was
/// read before. There is no room for a write, and a write is a counted fault.
#[derive(Drop)]
pub struct Seeing<T: Outer> {
    tree: T,
    seen: Seen,
    faults: u64,
    ghost names: { NamesOf (T.content tree) (seen_files seen) },
    ghost fronts: { FrontsOf (T.content tree) seen },
}

impl<T: Outer + Drop> Seeing<T> {
    ghost use Rattle.known.specs.Known.{known_faults, known_files, known_tree};
    ghost use Rattle.known.specs.Seeing.{seeing_faults, seeing_tree};

    /// A folder of which this was seen so far. It takes no memory.
    pub fn new(tree: T, seen: Seen) -> Self
        requires names { NamesOf (T.content tree) (seen_files seen) }
        requires fronts { FrontsOf (T.content tree) seen }
        ensures tree { seeing_tree result ≡ tree }
        ensures faults { seeing_faults result ≡ 0 }
    {
        Seeing {
            tree,
            seen,
            faults: 0,
        }
    }

    /// What was seen so far.
    pub fn recall(&self) -> &Seen
        ensures { result.now ≡ self.now.seen }
    {
        &self.seen
    }

    /// The folder. It takes no memory.
    pub fn into_tree(self) -> T
        ensures { result ≡ seeing_tree self }
    {
        self.tree
    }

    /// The folder with what was seen of it. If there is no memory, the call returns the folder alone.
    pub fn into_known(self, alloc: Global) -> Result<Known<T>, T>
        ensures tree { IfOk result (λ known. known_tree known ≡ seeing_tree self) }
        ensures files { IfOk result (λ known. known_files known ≡ seen_files self.seen) }
        ensures faults { IfOk result (λ known. known_faults known ≡ 0) }
        ensures back { IfErr result (λ tree. tree ≡ seeing_tree self) }
    {
        Known::new(alloc, self.tree, self.seen)
    }

    /// The first bytes of a file, which is read if it was not before.
    fn front(&mut self, alloc: Global, name: &str, limit: u32) -> Result<Vec<u8>, TreeError>
        ensures seen { IfOk result (λ bytes. IsFront limit (get (seen_files self.new.seen) name.now) bytes.items) }
        ensures read { OnOk result (IsRead self.new.seen name.now limit) }
        ensures limit { IfOk result (λ bytes. length bytes.items ≤ limit) }
        ensures content { T.content self.new.tree ≡ T.content self.old.tree }
        ensures faults { seeing_faults self.new ≡ seeing_faults self.old }
    {
        if self.seen.front(name, limit).is_none() {
            see_file(alloc, name, limit, &mut self.tree, &mut self.seen)?;
        }
        match self.seen.front(name, limit) {
            Some(bytes) => Ok(bytes.to_vec(alloc)?),
            None => Err(TreeError::Memory),
        }
    }
}

impl<T: Outer + Drop> Tree for Seeing<T> {
    ghost use Rattle.known.specs.Seeing.{seeing_faults};

    ghost faults = { seeing_faults };

    ghost content = { λ seeing. T.content seeing.tree };

    ghost room_for = { λ _ _. 0 };

    ghost is_steady = { λ _. ⊥ };

    fn list(&mut self, alloc: Global) -> Result<Vec<String>, TreeError> {
        Ok(self.seen.names(alloc)?)
    }

    fn read(&mut self, alloc: Global, name: &str, limit: u32) -> Result<Vec<u8>, TreeError> {
        let answer = self.front(alloc, name, limit);
        if let Err(TreeError::Failed) = &answer {
            self.faults = self.faults.saturating_add(1);
        }
        answer
    }

    fn room(&mut self, _alloc: Global, _name: &str, _len: u32) -> Result<(), Memory> {
        Err(Memory)
    }

    fn write(&mut self, _name: &str, _bytes: &[u8]) -> Result<(), Failed> {
        self.faults = self.faults.saturating_add(1);
        Err(Failed)
    }
}
