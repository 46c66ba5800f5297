//! What was seen of a folder.
ghost use Rattle.std.specs.Prelude.{◌≡◌, ◌≤◌, ℕ, List, length, map, string_bytes, IfOk, IfSome, IsSome, OnErr, OnOk, OnSome, is_some};
ghost use Rattle.std.specs.FinMap.{empty, get, insert, keys};
ghost use Rattle.tree_io.specs.Outside.{IsFront, KeepsRoom};

use crate::held::Held;
use rotor_base::Memory;
use std::alloc::Global;
use std::collections::BTreeMap;

/// The names of a folder, each with the first bytes of its file, as far as they were read.
#[derive(Drop)]
pub struct Seen {
    files: BTreeMap<String, Held>,
}

impl Seen {
    ghost use Rattle.known.specs.Seen.{IsRead, SetsFile, seen_files, seen_held, seen_room};

    /// A folder without names. It takes no memory.
    pub(crate) fn new(alloc: Global) -> Self
        ensures { seen_files result ≡ empty }
    {
        Seen {
            files: BTreeMap::new(alloc),
        }
    }

    /// Sets the bytes of a file.
    pub(crate) fn set(&mut self, name: String, held: Held) -> Result<(), Memory>
        ensures set { OnOk result (SetsFile (string_bytes name) held self.old self.new) }
        ensures kept { OnErr result ((other : List ℕ) → seen_held self.new other ≡ seen_held self.old other) }
    {
        self.files.insert(name, held)?;
        Ok(())
    }

    /// Whether the folder has this name.
    pub fn has(&self, name: &str) -> bool
        ensures { result ≡ is_some (get (seen_files self.now) name.now) }
    {
        self.files.contains_key(name)
    }

    /// The names, in byte order.
    pub(crate) fn names(&self, alloc: Global) -> Result<Vec<String>, Memory>
        ensures { IfOk result (λ names. map string_bytes names.items ≡ keys (seen_files self.now)) }
    {
        let mut names = Vec::new(alloc);
        for name in self.files.keys() {
            names.push(String::from_str(alloc, name.as_str())?)?;
        }
        Ok(names)
    }

    /// The first `limit` bytes of a file, if so many were read, or all of it.
    pub(crate) fn front(&self, name: &str, limit: u32) -> Option<&[u8]>
        ensures front { IfSome result (λ bytes. IsFront limit (get (seen_files self.now) name.now) bytes.now) }
        ensures limit { IfSome result (λ bytes. length bytes.now ≤ limit) }
        ensures read { OnSome result (IsRead self.now name.now limit) }
    {
        let held = self.files.get(name)?;
        let count = held.bytes.len();
        if limit > held.limit && count >= held.limit as usize {
            return None;
        }
        Some(&held.bytes[..count.min(limit as usize)])
    }

    /// Takes room for so many bytes of a file that the folder has.
    pub(crate) fn reserve(&mut self, name: &str, len: u32) -> Result<(), Memory>
        requires { IsSome (get (seen_files self.old) name.now) }
        ensures made { OnOk result (len ≤ seen_room self.new name.now) }
        ensures room { KeepsRoom (seen_room self.old) (seen_room self.new) }
        ensures files { seen_files self.new ≡ seen_files self.old }
        ensures read { (other : List ℕ) (limit : ℕ) → IsRead self.new other limit → IsRead self.old other limit }
    {
        self.files.get_mut(name).unwrap().reserve(len)
    }

    /// Makes a file that the folder has hold just these bytes, for which there is room.
    pub(crate) fn fill(&mut self, name: &str, bytes: &[u8])
        requires there { IsSome (get (seen_files self.old) name.now) }
        requires fits { length bytes.now ≤ seen_room self.old name.now }
        ensures files { seen_files self.new ≡ insert (seen_files self.old) name.now bytes.now }
        ensures others { (other : List ℕ) → (other ≡ name.now → ⊥) → seen_held self.new other ≡ seen_held self.old other }
        ensures room { KeepsRoom (seen_room self.old) (seen_room self.new) }
    {
        self.files.get_mut(name).unwrap().fill(bytes);
    }
}
