//! What is validly renamed, `verify` accepts, and so what a batch leaves; and yes is an equivalence.
#![tactic(auto)]

mod laws;

pub use laws::{batches_say_yes, valid_renamings_are_verified, yes_is_an_equivalence};
