//! A batch of renamings, done one after the other, all or none.
#![tactic(auto)]

mod error;
mod laws;
mod reading;
mod run;
mod step;
mod text;

pub use error::{BatchError, BatchReadError};
pub use laws::{
    batches_are_one, batches_are_undone, batches_keep_runs, batches_rewrite, readings_are_one,
    undos_are_read,
};
pub use reading::read_batch;
pub use run::batch;
pub use step::{Batched, Change, Step, Undo};
pub use text::batch_text;
