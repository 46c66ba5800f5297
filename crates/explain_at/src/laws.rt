//! The law of targets.

ghost use Rattle.explain_at.specs.Laws.{TargetsAreRead};

/// Law: the line that is printed for a declaration of a plain name is read as a target, which names the declaration. So
/// `rotor rename` takes what `rotor-explain at` prints.
pub fn targets_are_read()
    ensures { TargetsAreRead }
{}
