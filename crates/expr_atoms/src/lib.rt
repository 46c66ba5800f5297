//! Atoms, brackets, records and applications: the expressions of levels 14 to 16.
#![tactic(auto)]

mod applications;
mod atoms;
mod brackets;
mod readers;
mod records;

pub use readers::Atoms;
