//! The laws of unused names, as the contract of a function.

ghost use Rattle.unused_renamings.specs.Laws.{NothingIsHidden, UnusedIsAccepted, UnusedIsRefusedSo};

/// In an accepted project, a renaming to a name that nothing has is no Clash, no Capture, and a Mislink only of a
/// hidden item. If nothing is hidden, it is refused only for its target, its name or a size, and else accepted.
pub fn unused_names_are_free()
    ensures refused { UnusedIsRefusedSo }
    ensures shown { NothingIsHidden }
    ensures accepted { UnusedIsAccepted }
{}
