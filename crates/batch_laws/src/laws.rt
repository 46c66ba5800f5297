//! The law of batches as renamings, as the contract of a function.

ghost use Rattle.batch_laws.specs.Laws.{BatchesAreValid};

/// A batch that is accepted and has a step gives validly renamed files.
pub fn batches_are_valid()
    ensures { BatchesAreValid }
{}
