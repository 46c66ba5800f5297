//! The laws of the comparison, each as the contract of a function.

ghost use Rattle.capture_check.specs.Fault.{FaultsAreOne};
ghost use Rattle.capture_check.specs.Local.{LooksDetermineFaults, NoFaultKeepsFacts};

/// Two lists of facts have one first fault, or none.
#[tactic(auto, using(crate::proofs::One::faults_are_one))]
pub fn faults_are_one()
    ensures { FaultsAreOne }
{}

/// The fault that the looks of a project give is the first fault of the renamed project against it.
pub fn looks_determine_faults()
    ensures { LooksDetermineFaults }
{}

/// If a renaming has no fault, the renamed project has the facts of the old one.
pub fn no_fault_keeps_facts()
    ensures { NoFaultKeepsFacts }
{}
