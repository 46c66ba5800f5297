//! The laws of answers, each as the contract of a function.

ghost use Rattle.answer_laws.specs.Laws.{ChecksAreAnswered, FootprintsAreAnswered, RenamingsAreAnswered};

/// For all files, `check` has an answer.
pub fn checks_are_answered()
    ensures { ChecksAreAnswered }
{}

/// For all files and a target, `footprint` has an answer.
pub fn footprints_are_answered()
    ensures { FootprintsAreAnswered }
{}

/// For all files, a target and a new name, `rename` has an answer.
pub fn renamings_are_answered()
    ensures { RenamingsAreAnswered }
{}
