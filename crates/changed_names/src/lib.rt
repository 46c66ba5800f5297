//! A renaming gives value names if it gives them to what it changes.
#![tactic(auto)]

mod laws;

pub use laws::changes_give_value_names;
