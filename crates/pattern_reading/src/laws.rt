//! The laws of patterns, each as the contract of a function.

ghost use Rattle.token_reading.specs.Longest.{OnePatReading};

/// Two well-formed patterns of the same words are one.
#[tactic(auto, using(crate::proofs::LawsPat::one_pat_reading))]
pub fn one_pat_reading()
    ensures { OnePatReading }
{}
