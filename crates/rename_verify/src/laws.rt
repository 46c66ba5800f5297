//! The laws of verdicts, each as the contract of a function.

ghost use Rattle.rename_verify.specs.Laws.{ValidIsYes, ValidSaysYes, VerdictsAreOne, YesIsValid, YesKeepsRuns};

/// Two projects have at most one verdict.
pub fn verdicts_are_one()
    ensures { VerdictsAreOne }
{}

/// The verdict is yes exactly for a valid respelling, and the renaming's changes are reported. Then every bounded run
/// of the project is kept.
pub fn yes_is_valid()
    ensures valid { YesIsValid }
    ensures yes { ValidIsYes }
    ensures said { ValidSaysYes }
    ensures runs { YesKeepsRuns }
{}
