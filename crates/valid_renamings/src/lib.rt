//! Valid renamings of a project: none, one after another, and one back.
#![tactic(auto)]

mod laws;

pub use laws::{
    later_names_win, no_change_is_valid, valid_renamings_compose, valid_renamings_go_back,
};
