//! A folder in memory that fails at listed calls.
ghost use Rattle.std.specs.Prelude.{◌≡◌, ◌/◌, ◌≤◌, ◌↔◌, map, length, take, string_bytes, Some, None, is_err, IfOk, IfSome, IfNone, IsSome, IsNone, IsErr, IsErrOf, IsTrue, OnOk, OnErr, IsPermutation};
ghost use Rattle.std.specs.FinMap.{get, keys, insert};
ghost use Rattle.tree_io.specs.MemTree.{mem_files, mem_room, mem_failing, mem_calls, mem_faults, fails_next, IsSteady, CountsCall, CountsNothing};
ghost use Rattle.tree_io.specs.Outside.{HasCause, HasFault, StaysSteady, KeepsRoom, IsFront, Writes, Spoils};
ghost use Rattle.tree_io.specs.Store.{source_map, HasDistinctNames};

use crate::counts::{count_up, is_listed};
use crate::store::Store;
use crate::{Tree, TreeError};
use rotor_base::{Failed, Memory, SourceFile};
use std::alloc::Global;

/// A folder in memory that fails at listed calls, for tests of what a program does then. Calls of `list`, `read` and
/// `write` are counted from 1, and those whose number is listed fail.
#[derive(Drop)]
pub struct MemTree {
    store: Store,
    failing: Vec<u32>,
    calls: u64,
    faults: u64,
}

impl MemTree {
    /// A folder of these files, whose names are distinct, with no call counted.
    ///
    /// # Errors
    ///
    /// `Memory` alone.
    pub fn new(alloc: Global, files: Vec<SourceFile>, failing: Vec<u32>) -> Result<Self, Memory>
        requires { HasDistinctNames files.items }
        ensures files { IfOk result (λ tree. mem_files tree ≡ source_map files.items) }
        ensures failing { IfOk result (λ tree. mem_failing tree ≡ failing.items) }
        ensures calls { IfOk result (λ tree. mem_calls tree ≡ 0) }
        ensures faults { IfOk result (λ tree. mem_faults tree ≡ 0) }
    {
        Ok(MemTree {
            store: Store::new(alloc, files)?,
            failing,
            calls: 0,
            faults: 0,
        })
    }

    /// The bytes of a file; if the folder has no file of this name, `None`. It counts no call and takes no memory.
    pub fn get(&self, name: &str) -> Option<&[u8]>
        ensures found { IfSome result (λ bytes. get (mem_files self.now) name.now ≡ Some bytes.now) }
        ensures missing { IfNone result (get (mem_files self.now) name.now ≡ None) }
    {
        self.store.get(name)
    }

    /// Counts a call, and the fault of one that is listed.
    fn count_call(&mut self) -> Result<(), Failed>
        ensures failed { is_err result ≡ fails_next self.old }
        ensures counted { CountsCall self.old self.new }
        ensures cause { HasFault (mem_faults self.old) (mem_faults self.new) result }
        ensures steady { StaysSteady (IsSteady self.old) (IsSteady self.new) (IsErr result) }
        ensures store { self.new.store ≡ self.old.store }
    {
        self.calls = count_up(self.calls);
        if is_listed(&self.failing, self.calls) {
            self.faults = count_up(self.faults);
            return Err(Failed);
        }
        Ok(())
    }
}

impl Tree for MemTree {
    ghost faults = { mem_faults };

    ghost content = { λ tree. Some (mem_files tree) };

    ghost room_for = { mem_room };

    ghost is_steady = { IsSteady };

    fn list(&mut self, alloc: Global) -> Result<Vec<String>, TreeError>
        ensures names { IfOk result (λ names. IsPermutation (keys (mem_files self.old)) (map string_bytes names.items)) }
        ensures content { mem_files self.new ≡ mem_files self.old }
        ensures room { KeepsRoom (mem_room self.old) (mem_room self.new) }
        ensures cause { HasCause (mem_faults self.old) (mem_faults self.new) result }
        ensures steady { StaysSteady (IsSteady self.old) (IsSteady self.new) (IsErrOf result TreeError.Failed) }
        ensures failed { IsErrOf result TreeError.Failed ↔ IsTrue (fails_next self.old) }
        ensures counted { CountsCall self.old self.new }
    {
        self.count_call()?;
        Ok(self.store.names(alloc)?)
    }

    fn read(&mut self, alloc: Global, name: &str, limit: u32) -> Result<Vec<u8>, TreeError>
        requires { IsSome (get (mem_files self.old) name.now) }
        ensures bytes { IfOk result (λ bytes. IsFront limit (get (mem_files self.old) name.now) bytes.items) }
        ensures limit { IfOk result (λ bytes. length bytes.items ≤ limit) }
        ensures content { mem_files self.new ≡ mem_files self.old }
        ensures room { KeepsRoom (mem_room self.old) (mem_room self.new) }
        ensures cause { HasCause (mem_faults self.old) (mem_faults self.new) result }
        ensures steady { StaysSteady (IsSteady self.old) (IsSteady self.new) (IsErrOf result TreeError.Failed) }
        ensures failed { IsErrOf result TreeError.Failed ↔ IsTrue (fails_next self.old) }
        ensures counted { CountsCall self.old self.new }
    {
        self.count_call()?;
        Ok(self.store.read(alloc, name, limit)?)
    }

    fn room(&mut self, alloc: Global, name: &str, len: u32) -> Result<(), Memory>
        ensures made { OnOk result (len ≤ mem_room self.new name.now) }
        ensures room { KeepsRoom (mem_room self.old) (mem_room self.new) }
        ensures content { mem_files self.new ≡ mem_files self.old }
        ensures counted { CountsNothing self.old self.new }
    {
        self.store.room(alloc, name, len)
    }

    fn write(&mut self, name: &str, bytes: &[u8]) -> Result<(), Failed>
        requires fits { length bytes.now ≤ mem_room self.old name.now }
        requires placed { IsNone (get (mem_files self.old) name.now) → 1 ≤ mem_room self.old name.now }
        ensures written { OnOk result (mem_files self.new ≡ insert (mem_files self.old) name.now bytes.now) }
        ensures half { OnErr result (mem_files self.new ≡ insert (mem_files self.old) name.now (take (length bytes.now / 2) bytes.now)) }
        ensures room { KeepsRoom (mem_room self.old) (mem_room self.new) }
        ensures cause { HasFault (mem_faults self.old) (mem_faults self.new) result }
        ensures steady { StaysSteady (IsSteady self.old) (IsSteady self.new) (IsErr result) }
        ensures failed { is_err result ≡ fails_next self.old }
        ensures counted { CountsCall self.old self.new }
    {
        let answer = self.count_call();
        let kept = if answer.is_ok() {
            bytes.len()
        } else {
            bytes.len() / 2
        };
        self.store.put(name, &bytes[..kept]);
        answer
    }
}
