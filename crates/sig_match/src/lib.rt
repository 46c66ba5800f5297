//! Links between shapes: a source is matched with a target, and a shape is pinned to the outside.
#![tactic(auto)]

mod found;
mod links;
mod looks;
mod matching;
mod pinning;

pub use links::{Matched, match_shapes, pin};
pub use looks::{
    Test, find_last_in, look_of_value, match_looks, pin_looks, watch_match, watch_pin,
};
