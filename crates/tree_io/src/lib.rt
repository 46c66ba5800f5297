//! The outside of ROTOR: a folder of files and an output, as traits that a program is proved over, with two folders
//! and an output in memory, and those of the system. A list of files is written to a folder one file after another.
#![tactic(auto)]

mod counts;
mod disk;
mod distinct;
mod host;
mod host_disk;
mod host_reads;
mod host_writes;
mod mem_sink;
mod mem_tree;
mod outside;
mod slot;
mod sound_tree;
mod store;
mod writes;

pub use disk::{Disk, Found, Node};
pub use distinct::have_distinct_names;
pub use host::{HostSink, HostTree};
pub use host_disk::HostDisk;
pub use mem_sink::MemSink;
pub use mem_tree::MemTree;
pub use outside::{Sink, Tree, TreeError};
pub use sound_tree::SoundTree;
pub use writes::{take_room, write_all};
