//! The laws of batches, each as the contract of a function.
ghost use Rattle.rename_batch.specs.Laws.{BatchOrBadLine, BatchesAreOne, BatchesAreUndone, BatchesKeepRuns, BatchesRewrite, OneBadLine, OneBatch, UndosAreRead};

use rename_files::answers_are_one;
use rename_laws::{
    kept_runs_go_on, renamings_are_undone, renamings_keep_runs, renamings_rewrite,
    undos_have_places,
};

/// Lines are a batch of one list of steps at most, or have one bad line at most, and not both.
pub fn readings_are_one()
    ensures steps { OneBatch }
    ensures line { OneBadLine }
    ensures apart { BatchOrBadLine }
{}

/// Files and steps have at most one result.
pub fn batches_are_one()
    ensures { BatchesAreOne }
{
    answers_are_one();
}

/// A batch that is accepted rewrites sources, lists those that changed in order, and changes nothing else.
pub fn batches_rewrite()
    ensures { BatchesRewrite }
{
    renamings_rewrite();
}

/// What the report of an accepted batch prints behind `undo ` are lines that request the steps back. If the steps are
/// those of a batch's lines, these lines are a batch too.
pub fn undos_are_read()
    ensures { UndosAreRead }
{
    renamings_rewrite();
    undos_have_places();
}

/// A batch that is accepted is undone by the batch of its steps back, which gives the old files.
pub fn batches_are_undone()
    ensures { BatchesAreUndone }
{
    renamings_rewrite();
    renamings_are_undone();
    undos_have_places();
}

/// A batch that is accepted and has a step keeps every bounded run of the project.
pub fn batches_keep_runs()
    ensures { BatchesKeepRuns }
{
    renamings_rewrite();
    renamings_keep_runs();
    kept_runs_go_on();
}
