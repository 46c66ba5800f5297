//! The laws of validly renamed files and verdicts, each as the contract of a function.

ghost use Rattle.verified_respellings.specs.Laws.{BatchesSayYes, SaysYesOfItself, ValidlyRenamedAreVerified, VerifiedAreValidlyRenamed, YesGoesBack, YesGoesOn};

/// Files that are validly renamed are a valid respelling of the old ones, if `check` accepts these; and what `verify`
/// says yes to is validly renamed.
pub fn valid_renamings_are_verified()
    ensures respelling { ValidlyRenamedAreVerified }
    ensures renamed { VerifiedAreValidlyRenamed }
{}

/// Each verdict on what a batch leaves is yes.
pub fn batches_say_yes()
    ensures { BatchesSayYes }
{}

/// On files that `check` accepts, yes is an equivalence: each verdict from files to themselves is yes; if one from old
/// files to new ones is yes, each back is; and if two in a row are yes, each from the first files to the last is.
pub fn yes_is_an_equivalence()
    ensures itself { SaysYesOfItself }
    ensures back { YesGoesBack }
    ensures on { YesGoesOn }
{}
