//! The laws of reading that give a witness, each as the contract of a function.

ghost use Rattle.decided_readings.specs.Laws.{FilesAreCut, FilesAreDecided, OrdersAreDecided, SourcesAreDecided};

/// Each file of bytes is cut into lexemes, or it has a fault.
pub fn files_are_cut()
    ensures { FilesAreCut }
{}

/// Each source is read as a tree, or something says why it is not.
pub fn sources_are_decided()
    ensures { SourcesAreDecided }
{}

/// Units of different names have an order without a manifest, or the first unit that lies on a cycle is named.
pub fn orders_are_decided()
    ensures { OrdersAreDecided }
{}

/// All files are read as a project, or something says why they are not.
pub fn files_are_decided()
    ensures { FilesAreDecided }
{}
