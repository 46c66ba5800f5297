//! The laws of valid renamings, each as the contract of a function.

ghost use Rattle.valid_renamings.specs.Laws.{NothingIsValid, OnceIsTheSame, OnceIsTwice, TwiceIsOnce, ValidGoesBack};
ghost use Rattle.valid_renamings.specs.Laws.{ValidsAreOne, ValidsCompose};

/// No change is a valid renaming of a good project.
pub fn no_change_is_valid()
    ensures { NothingIsValid }
{}

/// A valid renaming, and a valid one of the renamed project, are together a valid one. Together they give a project
/// that is resolved by the same steps.
pub fn valid_renamings_compose()
    ensures valid { ValidsCompose }
    ensures same { ValidsAreOne }
{}

/// A valid renaming has a valid one back, after which the project is resolved by the old steps.
pub fn valid_renamings_go_back()
    ensures { ValidGoesBack }
{}

/// A valid renaming and then one that names the same places are the later one alone, and the other way.
pub fn later_names_win()
    ensures once { TwiceIsOnce }
    ensures twice { OnceIsTwice }
    ensures same { OnceIsTheSame }
{}
