//! What a renaming to a name that no value has is refused for.
#![tactic(auto)]

mod laws;

pub use laws::unused_names_are_free;
