//! The laws of the items before a front: each is the longest that begins where it does, behind the last no item begins,
//! and no other items are so.
#![tactic(auto)]

mod laws;

pub use laws::{fronts_end_longest_items, one_longest_reading};
