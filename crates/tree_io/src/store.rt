//! Files in memory. Each folder in memory holds such a store.
ghost use Rattle.std.specs.Prelude.{◌≡◌, ◌≤◌, true, length, map, string_bytes, None, Some, IfOk, IfSome, IfNone, IsSome, IsNone, OnOk, IsPermutation};
ghost use Rattle.std.specs.FinMap.{get, keys, insert};
ghost use Rattle.tree_io.specs.Outside.{KeepsRoom, IsFront};
ghost use Rattle.tree_io.specs.Slots.{are_distinct, files_in};

use crate::slot::{Slot, position};
use rotor_base::{Memory, SourceFile, Text};
use std::alloc::Global;

/// Files by their names, each name once.
#[derive(Drop)]
pub struct Store {
    slots: Vec<Slot>,
    ghost distinct: { are_distinct (map (λ slot. slot.name) slots.items) ≡ true },
}

impl Store {
    ghost use Rattle.tree_io.specs.Store.{stored, store_room, source_map, HasDistinctNames};

    /// These files, with no room beside what they hold.
    pub(crate) fn new(alloc: Global, files: Vec<SourceFile>) -> Result<Self, Memory>
        requires { HasDistinctNames files.items }
        ensures { IfOk result (λ store. stored store ≡ source_map files.items) }
    {
        let slots = make_slots(alloc, files)?;
        Ok(Store { slots })
    }

    /// The names of the files.
    pub(crate) fn names(&self, alloc: Global) -> Result<Vec<String>, Memory>
        ensures { IfOk result (λ names. IsPermutation (keys (stored self.now)) (map string_bytes names.items)) }
    {
        let mut names = Vec::new(alloc);
        for slot in &self.slots {
            if slot.there {
                names.push(String::from_str(alloc, slot.name.as_str())?)?;
            }
        }
        Ok(names)
    }

    /// The bytes of a file.
    pub(crate) fn get(&self, name: &str) -> Option<&[u8]>
        ensures found { IfSome result (λ bytes. get (stored self.now) name.now ≡ Some bytes.now) }
        ensures missing { IfNone result (get (stored self.now) name.now ≡ None) }
    {
        let at = position(&self.slots, name)?;
        let slot = &self.slots[at];
        if slot.there { Some(&slot.bytes) } else { None }
    }

    /// The first bytes of a file, at most `limit`.
    pub(crate) fn read(&self, alloc: Global, name: &str, limit: u32) -> Result<Vec<u8>, Memory>
        requires { IsSome (get (stored self.now) name.now) }
        ensures bytes { IfOk result (λ bytes. IsFront limit (get (stored self.now) name.now) bytes.items) }
        ensures limit { IfOk result (λ bytes. length bytes.items ≤ limit) }
    {
        let bytes = self.get(name).unwrap();
        let count = bytes.len().min(limit as usize);
        Ok(bytes[..count].to_vec(alloc)?)
    }

    /// Takes room for so many bytes under a name.
    pub(crate) fn room(&mut self, alloc: Global, name: &str, len: u32) -> Result<(), Memory>
        ensures made { OnOk result (len ≤ store_room self.new name.now) }
        ensures room { KeepsRoom (store_room self.old) (store_room self.new) }
        ensures content { stored self.new ≡ stored self.old }
    {
        match position(&self.slots, name) {
            Some(at) => self.slots[at].reserve(len as usize),
            None => {
                let slot = Slot {
                    name: Text::from_string(String::from_str(alloc, name)?),
                    bytes: Vec::with_capacity(alloc, len as usize)?,
                    there: false,
                };
                self.slots.push(slot)?;
                Ok(())
            }
        }
    }

    /// Makes a file hold just these bytes, for which there is room.
    pub(crate) fn put(&mut self, name: &str, bytes: &[u8])
        requires fits { length bytes.now ≤ store_room self.old name.now }
        requires placed { IsNone (get (stored self.old) name.now) → 1 ≤ store_room self.old name.now }
        ensures content { stored self.new ≡ insert (stored self.old) name.now bytes.now }
        ensures room { KeepsRoom (store_room self.old) (store_room self.new) }
    {
        let at = position(&self.slots, name).unwrap();
        self.slots[at].fill(bytes);
    }
}

/// A slot for each file, with no room beside what it holds.
fn make_slots(alloc: Global, files: Vec<SourceFile>) -> Result<Vec<Slot>, Memory>
    ensures files { IfOk result (λ slots. files_in slots.items ≡ map (λ file. (file.name, file.bytes)) files.items) }
    ensures names { IfOk result (λ slots. map (λ slot. slot.name) slots.items ≡ map (λ file. file.name) files.items) }
{
    let mut slots = Vec::new(alloc);
    for file in files {
        slots.push(Slot {
            name: file.name,
            bytes: file.bytes.into_vec(),
            there: true,
        })?;
    }
    Ok(slots)
}
