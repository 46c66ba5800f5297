//! An output in memory that fails at listed puts and past its room.
ghost use Rattle.std.specs.Prelude.{◌≡◌, ◌≤◌, ◌++◌, length, vec_len, vec_capacity, [], Some, is_err, IfOk, IsOk, OnOk, OnErr};

use crate::Sink;
use crate::counts::{count_up, is_listed};
use rotor_base::{Failed, Memory};
use std::alloc::Global;

/// An output in memory, for tests of what a program does if a put fails. Puts are counted from 1. One whose number
/// is listed fails, and so does one past the room.
#[derive(Drop)]
pub struct MemSink {
    bytes: Vec<u8>,
    room: u32,
    failing: Vec<u32>,
    puts: u64,
    faults: u64,
    ghost within: { vec_len bytes ≤ room },
    ghost reserved: { room ≤ vec_capacity bytes },
}

impl MemSink {
    ghost use Rattle.tree_io.specs.MemSink.{sink_bytes, sink_room, sink_failing, sink_puts, mem_sink_faults};

    /// An output with room for so many bytes, which it takes here.
    ///
    /// # Errors
    ///
    /// `Memory` alone.
    pub fn new(alloc: Global, room: u32, failing: Vec<u32>) -> Result<Self, Memory>
        ensures bytes { IfOk result (λ sink. sink_bytes sink ≡ []) }
        ensures room { IfOk result (λ sink. sink_room sink ≡ room) }
        ensures failing { IfOk result (λ sink. sink_failing sink ≡ failing.items) }
        ensures puts { IfOk result (λ sink. sink_puts sink ≡ 0) }
        ensures faults { IfOk result (λ sink. mem_sink_faults sink ≡ 0) }
    {
        Ok(MemSink {
            bytes: Vec::with_capacity(alloc, room as usize)?,
            room,
            failing,
            puts: 0,
            faults: 0,
        })
    }

    /// The bytes taken so far.
    pub fn bytes(&self) -> &[u8]
        ensures { result.now ≡ sink_bytes self.now }
    {
        &self.bytes
    }
}

impl Sink for MemSink {
    ghost use Rattle.tree_io.specs.MemSink.{sink_bytes, mem_sink_faults, put_fails, kept_half, Accepts, CountsPut};
    ghost use Rattle.tree_io.specs.Outside.{HasFault, TakesPrefix};

    ghost faults = { mem_sink_faults };

    ghost taken = { λ sink. Some (sink_bytes sink) };

    ghost accepts = { Accepts };

    fn put(&mut self, bytes: &[u8]) -> Result<(), Failed>
        ensures added { OnOk result (sink_bytes self.new ≡ sink_bytes self.old ++ bytes.now) }
        ensures half { OnErr result (sink_bytes self.new ≡ sink_bytes self.old ++ kept_half self.old bytes.now) }
        ensures cut { OnErr result (TakesPrefix bytes.now (Some (sink_bytes self.old)) (Some (sink_bytes self.new))) }
        ensures failed { is_err result ≡ put_fails self.old (length bytes.now) }
        ensures cause { HasFault (mem_sink_faults self.old) (mem_sink_faults self.new) result }
        ensures accepted { Accepts self.old (length bytes.now) → IsOk result }
        ensures counted { CountsPut (length bytes.now) self.old self.new }
    {
        self.puts = count_up(self.puts);
        let space = self.room as usize - self.bytes.len();
        let fails = is_listed(&self.failing, self.puts) || space < bytes.len();
        let kept = if fails {
            (bytes.len() / 2).min(space)
        } else {
            bytes.len()
        };
        self.bytes.extend_from_slice(&bytes[..kept]).unwrap();
        if fails {
            self.faults = count_up(self.faults);
            return Err(Failed);
        }
        Ok(())
    }
}
