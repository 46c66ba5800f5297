//! What `rotor-explain at FILE:LINE:COLUMN` says: the target of the value at that place, or why there is none.
#![tactic(auto)]

mod laws;
mod over;
mod place;
mod spot;

pub use laws::targets_are_read;
pub use over::explain_at;
