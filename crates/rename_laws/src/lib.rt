//! What a renaming that is accepted keeps: the facts and the runs of the project, and that it changes a least
//! footprint.
#![tactic(auto)]

mod laws;

pub use laws::{
    changes_are_listed, footprints_are_least, kept_runs_go_on, operators_are_named,
    renamings_are_undone, renamings_are_valid, renamings_keep_facts, renamings_keep_runs,
    renamings_rewrite, shown_footprints_are_least, trees_go_back, undos_have_places,
};
