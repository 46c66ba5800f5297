//! What a batch gives is one valid renaming of the first files.
#![tactic(auto)]

mod laws;

pub use laws::batches_are_valid;
