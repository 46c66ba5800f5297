//! The laws of the open world, each as the contract of a function.

ghost use Rattle.open_world.specs.Laws.{NumbersStay, StaysValid, WordsStay};

/// A valid renaming stays valid if units that hold values alone define outside modules, linked first.
pub fn outside_may_open()
    ensures valid { StaysValid }
    ensures words { WordsStay }
{}

/// A valid renaming stays valid if files get other numbers in the same order.
pub fn files_may_move()
    ensures { NumbersStay }
{}
