//! The comparison of facts: whether a renaming would clash, capture or mislink.
#![tactic(auto)]

mod changes;
mod fault;
mod first;
mod laws;
mod local;
mod looked;
mod named;
mod order;
mod repeats;
mod would;

pub use changes::{first_capture, first_mislink};
pub use fault::{Change, Fault, Repeat};
pub use first::first_fault;
pub use laws::{faults_are_one, looks_determine_faults, no_fault_keeps_facts};
pub use local::{local_fault, local_fault_of};
pub use order::is_before;
pub use repeats::first_repeat;
