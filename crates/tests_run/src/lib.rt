//! The program over folders that fail or never fail, over the system's folder and output, and over a disk in memory.
#![tactic(auto)]

#[cfg(test)]
mod folder;

#[cfg(test)]
pub use folder::{one_file, source, sources, words};

#[cfg(test)]
mod tests;
