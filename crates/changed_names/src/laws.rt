//! The law of changed names, as the contract of a function.

ghost use Rattle.changed_names.specs.Laws.{ChangesAreEnough};

/// Only what a renaming changes has to get a value name.
pub fn changes_give_value_names()
    ensures { ChangesAreEnough }
{}
