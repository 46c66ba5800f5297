//! What `rename` refuses as a fault, `verify` finds in the respelled files.
#![tactic(auto)]

mod laws;

pub use laws::faults_are_verdicts;
