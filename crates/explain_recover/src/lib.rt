//! What `rotor-explain recover` says: which files a recovery would write.
#![tactic(auto)]

mod recovery;

pub use recovery::explain_recover;
