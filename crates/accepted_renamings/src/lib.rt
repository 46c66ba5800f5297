//! When a renaming is accepted, and what renamings one after another give.
#![tactic(auto)]

mod laws;

pub use laws::{
    accepted_exactly, either_order, members_rename_the_same, renamed_twice, renamings_go_on,
};
