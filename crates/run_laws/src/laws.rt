//! The law of fuel, as the contract of a function.

ghost use Rattle.run_laws.specs.Laws.{MoreFuelPrintsOn, MoreFuelIsTheSame};

/// A run that does not end for want of fuel is the same with more fuel. What a run prints is the beginning of what it
/// prints with more fuel.
pub fn runs_go_on()
    ensures same { MoreFuelIsTheSame }
    ensures beginning { MoreFuelPrintsOn }
{}
