//! The law of faults and verdicts, as the contract of a function.

ghost use Rattle.verified_refusals.specs.Laws.{FaultsAreVerdicts, FaultsAreTheOnlyVerdicts, FaultsHaveFiles};

/// A Clash, Capture or Mislink of `rename` is the one verdict of `verify` on the files that the renaming would make.
/// There are such files.
pub fn faults_are_verdicts()
    ensures verdict { FaultsAreVerdicts }
    ensures only { FaultsAreTheOnlyVerdicts }
    ensures files { FaultsHaveFiles }
{}
