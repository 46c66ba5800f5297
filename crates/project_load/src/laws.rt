//! The laws of loading, each as the contract of a function.
ghost use Rattle.project_load.specs.Listed.{ListsAreOne};
ghost use Rattle.project_load.specs.Rewritten.{LoadedFilesAreAProject, NewSourcesAreLoaded, OldSourcesAreRestored};

/// If a folder loads as some files, it loads as others of the same names after those that differ are written.
pub fn new_sources_are_loaded()
    ensures { NewSourcesAreLoaded }
{}

/// If the old sources are written again, the folder is as it was.
pub fn old_sources_are_restored()
    ensures { OldSourcesAreRestored }
{}

/// What a folder loads as is a project.
pub fn loaded_files_are_a_project()
    ensures { LoadedFilesAreAProject }
{}

/// A folder and a list have at most one answer.
pub fn lists_are_one()
    ensures { ListsAreOne }
{}
