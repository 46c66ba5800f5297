//! The bytes of one file, as far as they are known.
ghost use Rattle.std.specs.Prelude.{◌≡◌, ◌≤◌, [], length, vec_capacity, OnOk};

use rotor_base::Memory;
use std::alloc::Global;

/// The first bytes of a file: as many as the limit; if the file has fewer, all of them.
#[derive(Drop)]
pub(crate) struct Held {
    pub(crate) bytes: Vec<u8>,
    pub(crate) limit: u32,
}

impl Held {
    /// A file that was not read.
    pub(crate) fn make_unread(alloc: Global) -> Self
        ensures bytes { result.bytes.items ≡ [] }
        ensures limit { result.limit ≡ 0 }
    {
        Held {
            bytes: Vec::new(alloc),
            limit: 0,
        }
    }

    /// Makes the file hold just these bytes, for which there is room.
    pub(crate) fn fill(&mut self, bytes: &[u8])
        requires { length bytes.now ≤ vec_capacity self.old.bytes }
        ensures bytes { self.new.bytes.items ≡ bytes.now }
        ensures room { vec_capacity self.old.bytes ≤ vec_capacity self.new.bytes }
    {
        self.bytes.clear();
        self.bytes.extend_from_slice(bytes).unwrap();
        self.limit = u32::MAX;
    }

    /// Takes room for so many bytes.
    pub(crate) fn reserve(&mut self, len: u32) -> Result<(), Memory>
        ensures made { OnOk result (len ≤ vec_capacity self.new.bytes) }
        ensures bytes { self.new.bytes.items ≡ self.old.bytes.items }
        ensures limit { self.new.limit ≡ self.old.limit }
        ensures room { vec_capacity self.old.bytes ≤ vec_capacity self.new.bytes }
    {
        let missing = (len as usize).saturating_sub(self.bytes.len());
        self.bytes.reserve(missing)?;
        Ok(())
    }
}
