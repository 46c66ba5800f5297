//! The places of the values in trees, and the laws of trees that are respelled.
#![tactic(auto)]

mod found;
mod laws;
mod place;
mod sites;

pub use found::list_sites;
pub use laws::{
    lexemes_are_numbered, read_files_are_sound, respelled_files_are_read, respelled_names_are_read,
    respelling_keeps_the_tree, sites_are_numbered, sites_are_ordered, sites_are_respelled,
    sites_are_words, sites_have_their_words,
};
pub use place::{binders, puns, value_refs};
pub use sites::Site;
pub use value_sites::{Mark, label_of, operator_of};
