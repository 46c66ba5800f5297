//! The laws of the table of lexemes.
#![tactic(auto)]

mod laws;

pub use laws::{
    bad_is_refused, classes_are_apart, lexemes_are_longest, lexemes_are_of_their_class,
    long_names_are_long, trivia_are_longest,
};
