//! The laws of answers to batches and to `verify`, each as the contract of a function.

ghost use Rattle.command_answers.specs.Laws.{BatchesAreAnswered, VerdictsAreAnswered};

/// For all files and steps, a batch has an answer.
pub fn batches_are_answered()
    ensures { BatchesAreAnswered }
{}

/// For the files of two projects, `verify` has an answer.
pub fn verdicts_are_answered()
    ensures { VerdictsAreAnswered }
{}
