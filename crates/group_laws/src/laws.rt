//! The laws of groups that repeat no name, each as the contract of a function.
ghost use Rattle.group_laws.specs.Laws.{NoLeastIsNone, NoRepeatIsApart, UnrefusedIsGood};

/// If no least place repeats a name of its group, no place does.
pub fn no_least_is_none()
    ensures { NoLeastIsNone }
{}

/// In a sound project whose groups repeat no name, the values of each group have names of their own.
pub fn no_repeat_is_apart()
    ensures { NoRepeatIsApart }
{}

/// A sound project without a duplicate and an unmatched link is good.
pub fn unrefused_is_good()
    ensures { UnrefusedIsGood }
{}
