//! The reports of the commands, as text and as JSON.
#![tactic(auto)]

mod batch;
mod compact;
mod lines;
mod notice;
mod pieces;
mod plain;
mod recover;
mod verify;

pub use batch::{bad_batch_text, batch_line, step_line, stopped_text};
pub use compact::{json, load_data, refusal_data};
pub use lines::{files_line, undo_line};
pub use pieces::{number_text, push_line};
pub use plain::text;
pub use recover::{bad_plan_text, nothing_text, pending_text, recovered_text};
pub use verify::{
    bad_list_text, changed_line, fixed_text, other_byte_text, other_sources_text, verified_line,
};
