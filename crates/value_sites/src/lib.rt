//! The places of values in trees: what they are, form by form, in a tree and in its respelling; and what a sound
//! project is.
#![tactic(auto)]

mod mark;
mod value_words;

pub use mark::Mark;
pub use value_words::{label_of, operator_of};
