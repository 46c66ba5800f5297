//! What reads the files of a project. Each source is cut into lexemes and read as a tree. The trees are put together as
//! the units of a project, in the order of linking.
#![tactic(auto)]

mod known;
mod laws;
mod order;
mod project;
mod sources;
mod units;

pub use known::KnownTrees;
pub use laws::{
    one_reading, read_is_sound, respelling_keeps_the_lexemes, respelling_keeps_the_reading,
    trees_are_parts,
};
pub use project::{Read, read_project, read_rest};
