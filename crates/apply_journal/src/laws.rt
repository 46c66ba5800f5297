//! The laws of plans and of stops, each as the contract of a function that does nothing.
ghost use Rattle.apply_journal.specs.Laws.{PlansAreOne, RecoveredAreOne, StopsAreRecovered, WholeIsNew, RecoveryKeepsRecovered, RecoveryIsWhole};

/// Bytes are the plan of one list of files at most, and of each folder one project at most is recovered.
pub fn plans_are_one()
    ensures plans { PlansAreOne }
    ensures recovered { RecoveredAreOne }
{}

/// Writes that stop anywhere leave a folder of which the old project is recovered or the new one, whole. A recovery
/// that stops anywhere keeps what is recovered, and a whole one leaves it.
pub fn stops_are_recovered()
    ensures safe { StopsAreRecovered }
    ensures new { WholeIsNew }
    ensures again { RecoveryKeepsRecovered }
    ensures whole { RecoveryIsWhole }
{}
