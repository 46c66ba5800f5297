//! The folder and the output that ROTOR reads and writes.
ghost use Rattle.std.specs.Prelude.{◌≡◌, ◌≤◌, List, ℕ, Option, map, length, string_bytes, IfOk, IfSome, IsSome, IsNone, IsOk, IsErr, IsErrOf, OnOk, OnErr, IsPermutation};
ghost use Rattle.std.specs.Option.{ForSome};
ghost use Rattle.std.specs.FinMap.{get, keys};
ghost use Rattle.tree_io.specs.declared.outside.TreeError.TheVariants as variant;
ghost use Rattle.tree_io.specs.Outside.{FileMap, HasCause, HasFault, StaysSteady, KeepsRoom, Writes, Spoils, IsFront, Takes, TakesPrefix};

use rotor_base::{Failed, Memory};
use std::alloc::{AllocError, AllocFailed, Global};
use thiserror::Error;

/// Why a call of a [`Tree`] gave no answer.
#[derive(Clone, Copy, Debug, PartialEq, Eq, Error)]
pub enum TreeError {
    /// A counted fault of the folder.
    #[error("the folder failed")]
    Failed,
    /// Want of memory.
    #[error("out of memory")]
    Memory,
}

impl From<Memory> for TreeError {
    ghost from_gives = { λ _ e. e ≡ variant.Memory };

    fn from(_error: Memory) -> Self {
        TreeError::Memory
    }
}

impl From<AllocError> for TreeError {
    ghost from_gives = { λ _ e. e ≡ variant.Memory };

    fn from(_error: AllocError) -> Self {
        TreeError::Memory
    }
}

impl<T: Drop> From<AllocFailed<T>> for TreeError {
    ghost from_gives = { λ _ e. e ≡ variant.Memory };

    fn from(_error: AllocFailed<T>) -> Self {
        TreeError::Memory
    }
}

impl From<Failed> for TreeError {
    ghost from_gives = { λ _ e. e ≡ variant.Failed };

    fn from(_error: Failed) -> Self {
        TreeError::Failed
    }
}

/// A folder of files. The content of the trees in memory is modelled; that of the system's folder is not. If the
/// content is modelled before a call, it is modelled after the call too.
pub trait Tree {
    /// The count of faults. It never falls, and a count at the greatest `u64` stays there.
    ghost faults: { Self → ℕ };

    /// The map from names to bytes, if it is modelled.
    ghost content: { Self → Option FileMap };

    /// The bytes of room for each name. It has a meaning if the content is modelled.
    ghost room_for: { Self → List ℕ → ℕ };

    /// No call will fail, whatever calls are made.
    ghost is_steady: { Self → Type 0 };

    /// Each name of the folder once, in any order. It changes nothing.
    ///
    /// # Errors
    ///
    /// `Failed` after a counted fault, and `Memory`.
    fn list(&mut self, alloc: Global) -> Result<Vec<String>, TreeError>
        ensures names { IfOk result (λ names. IfSome (content self.old) (λ files. IsPermutation (keys files) (map string_bytes names.items))) }
        ensures content { content self.new ≡ content self.old }
        ensures room { KeepsRoom (room_for self.old) (room_for self.new) }
        ensures cause { HasCause (faults self.old) (faults self.new) result }
        ensures steady { StaysSteady (is_steady self.old) (is_steady self.new) (IsErrOf result TreeError.Failed) };

    /// The first `limit` bytes of the file of this name; if it is shorter, all of it. It changes nothing. If the
    /// content is modelled, the name has to be in the folder. If it is not, a name that is missing is a fault.
    ///
    /// # Errors
    ///
    /// `Failed` after a counted fault, and `Memory`.
    fn read(&mut self, alloc: Global, name: &str, limit: u32) -> Result<Vec<u8>, TreeError>
        requires { ForSome (content self.old) (λ files. IsSome (get files name.now)) }
        ensures bytes { IfOk result (λ bytes. IfSome (content self.old) (λ files. IsFront limit (get files name.now) bytes.items)) }
        ensures limit { IfOk result (λ bytes. length bytes.items ≤ limit) }
        ensures content { content self.new ≡ content self.old }
        ensures room { KeepsRoom (room_for self.old) (room_for self.new) }
        ensures cause { HasCause (faults self.old) (faults self.new) result }
        ensures steady { StaysSteady (is_steady self.old) (is_steady self.new) (IsErrOf result TreeError.Failed) };

    /// Takes room for `len` bytes under this name, so that a write of so many takes no memory. It changes neither the
    /// files nor the count, and a name that only has room is not in the folder.
    ///
    /// # Errors
    ///
    /// `Memory` alone.
    fn room(&mut self, alloc: Global, name: &str, len: u32) -> Result<(), Memory>
        ensures made { OnOk result (len ≤ room_for self.new name.now) }
        ensures room { KeepsRoom (room_for self.old) (room_for self.new) }
        ensures content { content self.new ≡ content self.old }
        ensures count { faults self.new ≡ faults self.old }
        ensures steady { is_steady self.old → is_steady self.new };

    /// Makes the file of this name hold just these bytes, and leaves all other files. A write that failed leaves any
    /// bytes in the file. It takes no memory: if the content is modelled, the caller takes the room before the call.
    ///
    /// # Errors
    ///
    /// `Failed` after a counted fault.
    fn write(&mut self, name: &str, bytes: &[u8]) -> Result<(), Failed>
        requires fits { ForSome (content self.old) (λ _. length bytes.now ≤ room_for self.old name.now) }
        requires placed { ForSome (content self.old) (λ files. IsNone (get files name.now) → 1 ≤ room_for self.old name.now) }
        ensures written { OnOk result (Writes name.now bytes.now (content self.old) (content self.new)) }
        ensures spoiled { OnErr result (Spoils name.now (content self.old) (content self.new)) }
        ensures room { KeepsRoom (room_for self.old) (room_for self.new) }
        ensures cause { HasFault (faults self.old) (faults self.new) result }
        ensures steady { StaysSteady (is_steady self.old) (is_steady self.new) (IsErr result) };
}

/// An output. The bytes that an output in memory took are modelled; those that the standard output took are not. If the
/// bytes are modelled before a call, they are modelled after the call too.
pub trait Sink {
    /// The count of faults. It never falls, and a count at the greatest `u64` stays there.
    ghost faults: { Self → ℕ };

    /// The bytes taken so far, if they are modelled.
    ghost taken: { Self → Option (List ℕ) };

    /// A put of so many bytes will not fail.
    ghost accepts: { Self → ℕ → Type 0 };

    /// Adds all the bytes at the end. A put that failed adds a prefix of them. It takes no memory.
    ///
    /// # Errors
    ///
    /// `Failed` after a counted fault.
    fn put(&mut self, bytes: &[u8]) -> Result<(), Failed>
        ensures added { OnOk result (Takes bytes.now (taken self.old) (taken self.new)) }
        ensures cut { OnErr result (TakesPrefix bytes.now (taken self.old) (taken self.new)) }
        ensures cause { HasFault (faults self.old) (faults self.new) result }
        ensures accepted { accepts self.old (length bytes.now) → IsOk result };
}
