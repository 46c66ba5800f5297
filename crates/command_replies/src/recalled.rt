//! The laws of the crates below.
ghost use Rattle.command_replies.specs.Laws.{HasLaws};

use cli_words::undos_are_read;
use project_load::{
    lists_are_one, loaded_files_are_a_project, new_sources_are_loaded, old_sources_are_restored,
};
use rename_batch::{
    batches_are_undone, batches_keep_runs, batches_rewrite, undos_are_read as batch_undos_are_read,
};
use rename_laws::{
    changes_are_listed, footprints_are_least, renamings_are_undone, renamings_are_valid,
    renamings_keep_facts, renamings_keep_runs, renamings_rewrite, shown_footprints_are_least,
    undos_have_places,
};
use rename_verify::yes_is_valid;

/// The laws of the crates below that the contract of the top call rests on.
pub fn recall_laws()
    ensures { HasLaws }
{
    loaded_files_are_a_project();
    new_sources_are_loaded();
    old_sources_are_restored();
    undos_are_read();
    renamings_rewrite();
    renamings_are_undone();
    undos_have_places();
    renamings_are_valid();
    renamings_keep_facts();
    renamings_keep_runs();
    footprints_are_least();
    shown_footprints_are_least();
    changes_are_listed();
    batches_rewrite();
    batches_are_undone();
    batch_undos_are_read();
    batches_keep_runs();
    yes_is_valid();
    lists_are_one();
}
