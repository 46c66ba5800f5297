//! Shapes: what modules and module types are to the names in them.
#![tactic(auto)]

mod all;
mod contents;
mod declarations;
mod error;
mod index;
mod joins;
mod kinds;
mod listed;
mod members;
mod opened;
mod own;
mod part;
mod parts;
mod scope;
mod shape;
mod shared;
mod sharing;

pub use all::AllEntries;
pub use error::FactError;
pub use index::{LookSpot, place_of};
pub use kinds::Kind;
pub use members::is_among;
pub use scope::{Scope, darks_in, last_val_in, mod_in, mty_in, val_in};
pub use shape::{
    Entry, GREATEST_WEIGHT, Shape, copy, find_mod, find_mty, find_val, visible, walk, weight,
};
pub use shared::{
    Shared, SharedEntry, darks_of, entries, is_shown, kind, last_member_of, last_other_of,
    last_val_of, levels_of, make_functor, make_opaque, make_struct, make_unitary, mod_of, mty_of,
    param, result, val_of, value_positions, weight_of,
};
pub use sharing::{bring, share, share_again};
