//! What `rotor-explain verify OLDLIST NEWLIST` says: whether the project of one list is a valid renaming of that of
//! another, and what it renames, or why it is none.
#![tactic(auto)]

mod judged;
mod lists;
mod refused;
mod verified;

pub use verified::explain_verify;
