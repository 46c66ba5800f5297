//! One file in memory, with room for more bytes.
ghost use Rattle.std.specs.Prelude.{◌≡◌, ◌≤◌, true, length, position, vec_capacity, OnOk};
ghost use Rattle.tree_io.specs.Slots.{is_named};

use rotor_base::{Memory, Text};

/// A name with the bytes of its file. One that is not there only has room: the capacity of its bytes.
#[derive(Drop)]
pub struct Slot {
    pub(crate) name: Text,
    pub(crate) bytes: Vec<u8>,
    pub(crate) there: bool,
}

impl Slot {
    /// Whether the slot has this name.
    fn is_named(&self, name: &str) -> bool
        ensures { result ≡ is_named name.now self.now }
    {
        self.name.as_str() == name
    }

    /// Makes the file hold just these bytes, for which there is room.
    pub(crate) fn fill(&mut self, bytes: &[u8])
        requires { length bytes.now ≤ vec_capacity self.old.bytes }
        ensures name { self.new.name ≡ self.old.name }
        ensures bytes { self.new.bytes.items ≡ bytes.now }
        ensures there { self.new.there ≡ true }
        ensures room { vec_capacity self.old.bytes ≤ vec_capacity self.new.bytes }
    {
        self.bytes.clear();
        self.bytes.extend_from_slice(bytes).unwrap();
        self.there = true;
    }

    /// Takes room for so many bytes.
    pub(crate) fn reserve(&mut self, len: usize) -> Result<(), Memory>
        ensures made { OnOk result (len ≤ vec_capacity self.new.bytes) }
        ensures name { self.new.name ≡ self.old.name }
        ensures bytes { self.new.bytes.items ≡ self.old.bytes.items }
        ensures there { self.new.there ≡ self.old.there }
        ensures room { vec_capacity self.old.bytes ≤ vec_capacity self.new.bytes }
    {
        let missing = len.saturating_sub(self.bytes.len());
        self.bytes.reserve(missing)?;
        Ok(())
    }
}

/// The index of the first slot of a name.
pub(crate) fn position(slots: &[Slot], name: &str) -> Option<usize>
    ensures { result ≡ position (is_named name.now) slots.now }
{
    slots.iter().position(|slot| slot.is_named(name))
}
