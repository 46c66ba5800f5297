//! The laws of acceptance, each as the contract of a function.

ghost use Rattle.accepted_renamings.specs.Laws.{AcceptedAreValid, AcceptedExactly, EitherOrder, MembersRenameTheSame};
ghost use Rattle.accepted_renamings.specs.Laws.{OnceIsTwice, TwiceIsOnce, ValidRenamingsGoOn};

/// A renaming is accepted exactly if three things hold: the map that gives the footprint the new name is valid; the
/// name is another one; the new sources are within the limits.
pub fn accepted_exactly()
    ensures { AcceptedExactly }
{}

/// Each member of a footprint as target renames the same.
pub fn members_rename_the_same()
    ensures { MembersRenameTheSame }
{}

/// A renaming to one name and then to a second is the renaming to the second. A binder that can be renamed to each of
/// two names can be renamed from the one to the other.
pub fn renamed_twice()
    ensures once { TwiceIsOnce }
    ensures twice { OnceIsTwice }
{}

/// An accepted renaming gives validly renamed files. Files that are validly renamed twice are so from the first to the
/// last.
pub fn renamings_go_on()
    ensures accepted { AcceptedAreValid }
    ensures further { ValidRenamingsGoOn }
{}

/// The renamings of two disjoint footprints give the same files in either order.
pub fn either_order()
    ensures { EitherOrder }
{}
