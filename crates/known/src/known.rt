//! A folder that was read before, and is still written.
ghost use Rattle.std.specs.Prelude.{◌≡◌, ◌≤◌, Some, IfErr, IfOk, IsNone, IsSome, OnOk, OnErr, length};
ghost use Rattle.std.specs.FinMap.{get};
ghost use Rattle.tree_io.specs.Outside.{HasCause, HasFault, IsFront, KeepsRoom, Spoils, Writes};
ghost use Rattle.known.specs.Kept.{KnowsFronts, kept_files};
ghost use Rattle.known.specs.Room.{lesser};
ghost use Rattle.known.specs.Seen.{FrontsOf, NamesOf, seen_files};

use crate::kept::Kept;
use crate::outer::Outer;
use crate::seeing::see_file;
use crate::seen::Seen;
use rotor_base::{Failed, Memory};
use std::alloc::Global;
use tree_io::{Tree, TreeError};

/// A read that was not answered, since too few bytes of the file are known.
#[derive(Drop)]
struct Missed {
    name: String,
    limit: u32,
}

/// A folder, with what was seen of it. Names and bytes are answered from what was seen; a write goes to the folder
/// first, and then to what was seen. A read of bytes that were not read before answers `Memory`, and is noted. After a
/// write that failed, each read and each listing answers `Memory`.
#[derive(Drop)]
pub struct Known<T: Outer> {
    tree: T,
    kept: Kept,
    missed: Option<Missed>,
    faults: u64,
    ghost names: { NamesOf (T.content tree) (kept_files kept) },
    ghost fronts: { faults ≡ 0 → KnowsFronts (T.content tree) kept },
}

impl<T: Outer + Drop> Known<T> {
    ghost use Rattle.known.specs.Known.{known_faults, known_files, known_tree};

    /// A folder of which this was seen. If there is no memory, the call returns the folder.
    pub fn new(alloc: Global, tree: T, seen: Seen) -> Result<Self, T>
        requires names { NamesOf (T.content tree) (seen_files seen) }
        requires fronts { FrontsOf (T.content tree) seen }
        ensures tree { IfOk result (λ known. known_tree known ≡ tree) }
        ensures files { IfOk result (λ known. known_files known ≡ seen_files seen) }
        ensures faults { IfOk result (λ known. known_faults known ≡ 0) }
        ensures back { IfErr result (λ back. back ≡ tree) }
    {
        match Kept::new(alloc, seen) {
            Ok(kept) => Ok(Known {
                tree,
                kept,
                missed: None,
                faults: 0,
            }),
            Err(Memory) => Err(tree),
        }
    }

    /// The folder. It takes no memory.
    pub fn into_tree(self) -> T
        ensures { result ≡ known_tree self }
    {
        self.tree
    }

    /// Reads the file that a read missed, and returns whether there is one.
    ///
    /// # Errors
    ///
    /// `Failed` if the folder failed or has no file of this name, and `Memory`.
    pub fn learn(&mut self, alloc: Global) -> Result<bool, TreeError>
        ensures content { T.content (known_tree self.new) ≡ T.content (known_tree self.old) }
        ensures faults { known_faults self.new ≡ known_faults self.old }
    {
        let Some(missed) = self.missed.take() else {
            return Ok(false);
        };
        see_file(
            alloc,
            missed.name.as_str(),
            missed.limit,
            &mut self.tree,
            &mut self.kept.seen,
        )?;
        Ok(true)
    }
}

impl<T: Outer + Drop> Tree for Known<T> {
    ghost use Rattle.known.specs.Known.{IsKnown, files_of, known_faults, known_files, known_room};

    ghost faults = { known_faults };

    ghost content = { λ known. Some (files_of (T.content known.tree) (known_files known)) };

    ghost room_for = { λ known. lesser (T.room_for known.tree) (known_room known) };

    ghost is_steady = { λ _. ⊥ };

    fn list(&mut self, alloc: Global) -> Result<Vec<String>, TreeError> {
        Ok(self.kept.names(alloc)?)
    }

    fn read(&mut self, alloc: Global, name: &str, limit: u32) -> Result<Vec<u8>, TreeError>
        requires { IsSome (get (files_of (T.content self.old.tree) (known_files self.old)) name.now) }
        ensures known { OnOk result (IsKnown self.old name.now limit) }
        ensures bytes { IfOk result (λ bytes. IsFront limit (get (files_of (T.content self.old.tree) (known_files self.old)) name.now) bytes.items) }
        ensures limit { IfOk result (λ bytes. length bytes.items ≤ limit) }
        ensures content { Some (files_of (T.content self.new.tree) (known_files self.new)) ≡ Some (files_of (T.content self.old.tree) (known_files self.old)) }
        ensures room { KeepsRoom (lesser (T.room_for self.old.tree) (known_room self.old)) (lesser (T.room_for self.new.tree) (known_room self.new)) }
        ensures cause { HasCause (known_faults self.old) (known_faults self.new) result }
    {
        if self.faults > 0 {
            return Err(TreeError::Memory);
        }
        match self.kept.front(name, limit) {
            Some(bytes) => Ok(bytes.to_vec(alloc)?),
            None => {
                let name = String::from_str(alloc, name)?;
                self.missed = Some(Missed { name, limit });
                Err(TreeError::Memory)
            }
        }
    }

    fn room(&mut self, alloc: Global, name: &str, len: u32) -> Result<(), Memory> {
        self.tree.room(alloc, name, len)?;
        self.kept.room(alloc, name, len)
    }

    fn write(&mut self, name: &str, bytes: &[u8]) -> Result<(), Failed>
        requires fits { length bytes.now ≤ lesser (T.room_for self.old.tree) (known_room self.old) name.now }
        requires placed { IsNone (get (files_of (T.content self.old.tree) (known_files self.old)) name.now) → 1 ≤ lesser (T.room_for self.old.tree) (known_room self.old) name.now }
        ensures written { OnOk result (Writes name.now bytes.now (Some (files_of (T.content self.old.tree) (known_files self.old))) (Some (files_of (T.content self.new.tree) (known_files self.new)))) }
        ensures spoiled { OnErr result (Spoils name.now (Some (files_of (T.content self.old.tree) (known_files self.old))) (Some (files_of (T.content self.new.tree) (known_files self.new)))) }
        ensures through { OnOk result (Writes name.now bytes.now (T.content self.old.tree) (T.content self.new.tree)) }
        ensures through_spoiled { OnErr result (Spoils name.now (T.content self.old.tree) (T.content self.new.tree)) }
        ensures room { KeepsRoom (lesser (T.room_for self.old.tree) (known_room self.old)) (lesser (T.room_for self.new.tree) (known_room self.new)) }
        ensures cause { HasFault (known_faults self.old) (known_faults self.new) result }
    {
        match self.tree.write(name, bytes) {
            Ok(()) => {
                self.kept.put(name, bytes);
                Ok(())
            }
            Err(Failed) => {
                self.kept.put(name, &bytes[..0]);
                self.faults = self.faults.saturating_add(1);
                Err(Failed)
            }
        }
    }
}
