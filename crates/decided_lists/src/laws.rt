//! The laws of what is read of lines, each as the contract of a function.

ghost use Rattle.decided_lists.specs.Laws.{BatchLinesAreDecided, ListsAreAnswered, PlansAreDecided};

/// Each folder gives an answer to each list.
pub fn lists_are_answered()
    ensures { ListsAreAnswered }
{}

/// Lines are a batch, or one of them is the first bad line.
pub fn batch_lines_are_decided()
    ensures { BatchLinesAreDecided }
{}

/// Bytes are the plan of some files, or of none.
pub fn plans_are_decided()
    ensures { PlansAreDecided }
{}
