//! The laws of tokens, each as the contract of a function.

ghost use Rattle.token_laws.specs.Laws.{ChecksAreTheSame, FootprintsAreTheSame, ReadingsAreTheSame, RenamingsAreTheSame};

/// Files that differ in blanks alone are read as the same project. `check` answers the same, and so does `footprint` of
/// targets that name the same token.
pub fn blanks_change_no_answer()
    ensures reading { ReadingsAreTheSame }
    ensures check { ChecksAreTheSame }
    ensures footprint { FootprintsAreTheSame }
{}

/// The answers of `rename` to targets that name the same token are the same, unless one is Grown. The new files differ
/// in blanks alone again.
pub fn blanks_change_no_renaming()
    ensures { RenamingsAreTheSame }
{}
