//! The files of a folder that was seen, and those that were made since.
ghost use Rattle.std.specs.Prelude.{◌≡◌, ◌≤◌, ℕ, List, length, map, string_bytes, IfOk, IfSome, IsNone, OnOk, OnSome, IsPermutation};
ghost use Rattle.std.specs.FinMap.{get, insert, keys};
ghost use Rattle.tree_io.specs.Outside.{IsFront, KeepsRoom};

use crate::seen::Seen;
use rotor_base::Memory;
use std::alloc::Global;
use tree_io::{SoundTree, Tree};

/// What was seen of a folder, with what was written since then.
#[derive(Drop)]
pub(crate) struct Kept {
    pub(crate) seen: Seen,
    /// The files that were not seen.
    made: SoundTree,
}

impl Kept {
    ghost use Rattle.known.specs.Kept.{HasRead, kept_files, kept_room};
    ghost use Rattle.known.specs.Seen.{seen_files};

    /// What was seen, before any write.
    pub(crate) fn new(alloc: Global, seen: Seen) -> Result<Self, Memory>
        ensures files { IfOk result (λ kept. kept_files kept ≡ seen_files seen) }
        ensures seen { IfOk result (λ kept. kept.seen ≡ seen) }
    {
        let made = SoundTree::new(alloc, Vec::new(alloc))?;
        Ok(Kept { seen, made })
    }

    /// The names of the files. If a file was made, the call answers `Memory`.
    pub(crate) fn names(&mut self, alloc: Global) -> Result<Vec<String>, Memory>
        ensures names { IfOk result (λ names. IsPermutation (keys (kept_files self.old)) (map string_bytes names.items)) }
        ensures room { KeepsRoom (kept_room self.old) (kept_room self.new) }
        ensures files { kept_files self.new ≡ kept_files self.old }
        ensures seen { self.new.seen ≡ self.old.seen }
    {
        match self.made.list(alloc) {
            Ok(made) if made.is_empty() => self.seen.names(alloc),
            _ => Err(Memory),
        }
    }

    /// The first `limit` bytes of a file, if so many are known, or all of it.
    pub(crate) fn front(&self, name: &str, limit: u32) -> Option<&[u8]>
        ensures front { IfSome result (λ bytes. IsFront limit (get (kept_files self.now) name.now) bytes.now) }
        ensures limit { IfSome result (λ bytes. length bytes.now ≤ limit) }
        ensures read { OnSome result (HasRead self.now name.now limit) }
    {
        if self.seen.has(name) {
            return self.seen.front(name, limit);
        }
        let bytes = self.made.get(name)?;
        Some(&bytes[..bytes.len().min(limit as usize)])
    }

    /// Takes room for so many bytes under a name.
    pub(crate) fn room(&mut self, alloc: Global, name: &str, len: u32) -> Result<(), Memory>
        ensures made { OnOk result (len ≤ kept_room self.new name.now) }
        ensures room { KeepsRoom (kept_room self.old) (kept_room self.new) }
        ensures files { kept_files self.new ≡ kept_files self.old }
        ensures read { (other : List ℕ) (limit : ℕ) → HasRead self.new other limit → HasRead self.old other limit }
    {
        if self.seen.has(name) {
            self.seen.reserve(name, len)
        } else {
            self.made.room(alloc, name, len)
        }
    }

    /// Makes a file hold just these bytes, for which there is room.
    pub(crate) fn put(&mut self, name: &str, bytes: &[u8])
        requires fits { length bytes.now ≤ kept_room self.old name.now }
        requires placed { IsNone (get (kept_files self.old) name.now) → 1 ≤ kept_room self.old name.now }
        ensures files { kept_files self.new ≡ insert (kept_files self.old) name.now bytes.now }
        ensures others { (other : List ℕ) (limit : ℕ) → (other ≡ name.now → ⊥) → HasRead self.new other limit → HasRead self.old other limit }
        ensures room { KeepsRoom (kept_room self.old) (kept_room self.new) }
    {
        if self.seen.has(name) {
            self.seen.fill(name, bytes);
        } else {
            let _ = self.made.write(name, bytes);
        }
    }
}
