//! The laws of files, each as the contract of a function.

ghost use Rattle.module_reading.specs.OneReading.{OneFileReading};

/// Two well-formed files of one kind and number that have the same words are one.
#[tactic(auto, using(crate::proofs::LawsMod::one_file_reading))]
pub fn one_file_reading()
    ensures { OneFileReading }
{}
