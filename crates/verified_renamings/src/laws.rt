//! The law of renamings and verdicts, as the contract of a function.

ghost use Rattle.verified_renamings.specs.Laws.{RenamingsAreVerified, RenamingsSayYes};

/// What a renaming that is accepted leaves is a valid respelling of the old files, and each verdict on it is yes.
pub fn renamings_are_verified()
    ensures respelling { RenamingsAreVerified }
    ensures verdict { RenamingsSayYes }
{}
