//! The laws, each as the contract of a function.

ghost use Rattle.respelled_reading.specs.Renamed.{RenamedBackAreTheFiles, RenamedFilesAreCut, RenamedFilesAreRead, WatchesGiveValueNames};

/// Renamed files are read as the respelled project.
pub fn renamed_files_are_read()
    ensures { RenamedFilesAreRead }
{}

/// Renamed files are cut into the respelled lexemes.
pub fn renamed_files_are_cut()
    ensures { RenamedFilesAreCut }
{}

/// The renaming of a watch gives value names.
pub fn watches_give_value_names()
    ensures { WatchesGiveValueNames }
{}

/// Files that are renamed back are the old files, if the trees that are respelled back are the old trees.
pub fn renamed_back_are_the_files()
    ensures { RenamedBackAreTheFiles }
{}
