//! The laws of the reading of modules and files: what is read is a tree of these words, and two files of the same words
//! are one.
#![tactic(auto)]

mod laws;

pub use laws::one_file_reading;
