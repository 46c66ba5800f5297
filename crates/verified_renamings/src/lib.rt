//! What `rename` leaves, `verify` accepts.
#![tactic(auto)]

mod laws;

pub use laws::renamings_are_verified;
