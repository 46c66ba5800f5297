//! The current folder and the standard output of the system. No clause says what they hold.
ghost use Rattle.std.specs.Prelude.{◌≡◌, ◌≤◌, ◌-◌, ◌^◌, ℕ, None, false, length, vec_len, IfOk, IsTrue, IsErr, OnOk};
ghost use Rattle.tree_io.specs.Outside.{HasCause, HasFault};
ghost use Rattle.tree_io.specs.Host.{tree_faults, tree_disk, is_blocked, sink_faults};

use crate::disk::Disk;
use crate::host_disk::HostDisk;
use crate::host_reads::{Stamp, are_unchanged, list_names, read_file};
use crate::host_writes::{is_owned, is_writable, write_file};
use crate::{Sink, Tree, TreeError};
use rotor_base::{Failed, Memory};
use std::alloc::Global;
use std::fs::File;
use std::rt::Files;

/// The current folder of the system. Its content is not modelled, and its `room` takes no memory. Each Err of the
/// system is a counted fault, and so is each read or write of a name that is no regular file, and each write that could
/// change a file under another name. A fault ends the call with `Failed`. Want of memory is not counted. A write that
/// was answered is on the disk. Once `room` or `read` finds that a write would not be sound, each later write is a
/// fault and asks nothing of the system. `room` finds so if a file that was read has been changed since then.
#[derive(Drop)]
pub struct HostTree<D> {
    disk: D,
    faults: u64,
    is_blocked: bool,
    /// The files that were read since `room` last looked at them.
    stamps: Vec<Stamp>,
}

impl<'a, R: Files<File = File> + AllocGlobal> HostTree<HostDisk<'a, R>> {
    /// The current folder, with no fault counted. It takes no memory.
    pub fn new(rt: &'a R) -> Self
        ensures { tree_faults result ≡ 0 }
    {
        HostTree::from_disk(rt.alloc(), HostDisk::new(rt))
    }
}

impl<D: Disk> HostTree<D> {
    /// The folder of a disk, with no fault counted. It takes no memory.
    pub fn from_disk(alloc: Global, disk: D) -> Self
        ensures faults { tree_faults result ≡ 0 }
        ensures disk { tree_disk result ≡ disk }
        ensures open { is_blocked result ≡ false }
    {
        HostTree {
            disk,
            faults: 0,
            is_blocked: false,
            stamps: Vec::new(alloc),
        }
    }

    /// The disk below.
    pub fn into_disk(self) -> D
        ensures { result ≡ tree_disk self }
    {
        self.disk
    }
}

impl<D: Disk> Tree for HostTree<D> {
    ghost faults = { tree_faults };

    ghost content = { λ _. None };

    ghost room_for = { λ _ _. 2 ^ 32 - 1 };

    ghost is_steady = { λ _. ⊥ };

    /// The names in the folder. One more than 1,048,576 of them is a fault, and so is one that is no UTF-8.
    ///
    /// # Errors
    ///
    /// `Failed` after a counted fault, and `Memory`.
    fn list(&mut self, alloc: Global) -> Result<Vec<String>, TreeError>
        ensures few { IfOk result (λ names. vec_len names ≤ 1048576) }
        ensures cause { HasCause (tree_faults self.old) (tree_faults self.new) result }
    {
        let answer = list_names(&mut self.disk, alloc);
        count_fault(&mut self.faults, answer)
    }

    fn read(&mut self, alloc: Global, name: &str, limit: u32) -> Result<Vec<u8>, TreeError>
        ensures few { IfOk result (λ bytes. length bytes.items ≤ limit) }
        ensures cause { HasCause (tree_faults self.old) (tree_faults self.new) result }
        ensures blocked { IsTrue (is_blocked self.old) → IsTrue (is_blocked self.new) }
    {
        let answer = read_file(
            &mut self.disk,
            alloc,
            name,
            limit,
            &mut self.is_blocked,
            &mut self.stamps,
        );
        count_fault(&mut self.faults, answer)
    }

    fn room(&mut self, _alloc: Global, name: &str, len: u32) -> Result<(), Memory>
        ensures made { OnOk result (len ≤ 2 ^ 32 - 1) }
        ensures count { tree_faults self.new ≡ tree_faults self.old }
        ensures blocked { IsTrue (is_blocked self.old) → self.new ≡ self.old }
    {
        if !self.is_blocked {
            self.is_blocked = !(is_owned(&mut self.disk)
                && are_unchanged(&mut self.disk, &self.stamps)
                && is_writable(&mut self.disk, name));
            self.stamps.clear();
        }
        Ok(())
    }

    fn write(&mut self, name: &str, bytes: &[u8]) -> Result<(), Failed>
        ensures cause { HasFault (tree_faults self.old) (tree_faults self.new) result }
        ensures blocked { IsTrue (is_blocked self.old) → IsErr result × (tree_disk self.new ≡ tree_disk self.old) }
        ensures stays { is_blocked self.new ≡ is_blocked self.old }
    {
        let answer = if self.is_blocked {
            Err(Failed)
        } else {
            write_file(&mut self.disk, name, bytes)
        };
        count_failed(&mut self.faults, answer)
    }
}

/// The standard output of the system. The bytes that it took are not modelled. Each Err of the system is a counted
/// fault, which ends the call with `Failed`.
#[derive(Drop)]
pub struct HostSink<'a, R> {
    rt: &'a R,
    faults: u64,
}

impl<'a, R: Print> HostSink<'a, R> {
    /// The standard output, with no fault counted. It takes no memory.
    pub fn new(rt: &'a R) -> Self
        ensures { sink_faults result ≡ 0 }
    {
        HostSink { rt, faults: 0 }
    }
}

impl<'a, R: Print> Sink for HostSink<'a, R> {
    ghost faults = { sink_faults };

    ghost taken = { λ _. None };

    ghost accepts = { λ _ _. ⊥ };

    fn put(&mut self, bytes: &[u8]) -> Result<(), Failed> {
        let answer = print_all(self.rt, bytes);
        count_failed(&mut self.faults, answer)
    }
}

/// Counts a fault of a call that may want memory too. A count at the greatest `u64` stays there.
fn count_fault<T>(faults: &mut u64, answer: Result<T, TreeError>) -> Result<T, TreeError>
    ensures answer { result ≡ answer }
    ensures cause { HasCause faults.old faults.new result }
{
    if let Err(TreeError::Failed) = &answer {
        *faults = faults.saturating_add(1);
    }
    answer
}

/// Counts a fault of a call that takes no memory. A count at the greatest `u64` stays there.
fn count_failed(faults: &mut u64, answer: Result<(), Failed>) -> Result<(), Failed>
    ensures answer { result ≡ answer }
    ensures cause { HasFault faults.old faults.new result }
{
    if answer.is_err() {
        *faults = faults.saturating_add(1);
    }
    answer
}

/// Writes all the bytes to the standard output. A write that takes nothing is a fault.
fn print_all<R: Print>(rt: &R, bytes: &[u8]) -> Result<(), Failed> {
    let mut rest = bytes;
    while !rest.is_empty() {
        let Ok(count) = rt.write_some(rest) else {
            return Err(Failed);
        };
        if count == 0 {
            return Err(Failed);
        }
        rest = &rest[count..];
    }
    Ok(())
}
