//! Tokens that are respelled: they nest as before, and the first refused form and the reading stay.
#![tactic(auto)]

mod laws;

pub use laws::{
    forms_are_kept, nesting_is_kept, respelled_tokens_are_kept, respelling_keeps_the_reading,
};
