//! The parts of a renaming: the goal of its target, what its footprint meets, the refusal that this gives, and the new
//! bytes.
#![tactic(auto)]

mod binders;
mod blurred;
mod bytes;
mod checks;
mod faults;
mod findings;
mod leasts;
mod links;
mod members;
mod sources;
mod targets;

pub use binders::{binder_at, placed_binder};
pub use blurred::find_least_blurred;
pub use bytes::{find_first_over, new_bytes};
pub use checks::{Hit, find_least_pun, has_operator, hit_marks};
pub use faults::refusal_of_fault;
pub use findings::{Findings, Hits, judge_foot};
pub use links::find_least_unmatched;
pub use members::{count_refs, files_of, hit_places};
pub use sources::{changed_files, new_source, remake};
pub use targets::{find_dotted, number_of, token_at};
