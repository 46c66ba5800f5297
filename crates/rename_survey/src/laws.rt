//! The law of surveys, as the contract of a function.
ghost use Rattle.rename_survey.specs.Laws.{ListedAreBinders};

/// The binders that a survey lists are binders of the project that its files are read as.
pub fn listed_are_binders()
    ensures { ListedAreBinders }
{}
