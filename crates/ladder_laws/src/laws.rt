//! The laws of the ladders, each as the contract of a function.

ghost use Rattle.ladder_laws.specs.Laws.{ProjectsAreDecided, RenamingsAreDecided};

/// A refusal of a project holds, or none does.
pub fn projects_are_decided()
    ensures { ProjectsAreDecided }
{}

/// A refusal of a renaming of a binder and its footprint holds, or none does, if the sources can be respelled.
pub fn renamings_are_decided()
    ensures { RenamingsAreDecided }
{}
