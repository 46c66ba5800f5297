//! The laws of the answers, each as the contract of a function.

ghost use Rattle.rename_files.specs.Laws.{OneCheck, OneFootprint, OneRenaming};

/// A call has at most one answer for the same files and arguments.
pub fn answers_are_one()
    ensures check { OneCheck }
    ensures footprint { OneFootprint }
    ensures renaming { OneRenaming }
{}
