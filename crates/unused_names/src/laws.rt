//! The laws of unused names, as the contract of a function.

ghost use Rattle.unused_names.specs.Laws.{NothingHiddenStays, UnusedTakesNothing};

/// If a footprint takes a name that nothing has, the renamed project has no fault but a Mislink of a hidden item. If
/// nothing is hidden, it has the old facts.
pub fn unused_names_are_apart()
    ensures fault { UnusedTakesNothing }
    ensures facts { NothingHiddenStays }
{}
