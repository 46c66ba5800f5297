//! The law that what the reports print is read again.
ghost use Rattle.cli_words.specs.Laws.{UndosAreRead};

/// The words of an undo, as a report prints them, request that renaming: `rename FILE#N NAME --write`, where FILE is
/// a source, N a number from 1 to 4,294,967,295 in decimal, and NAME a value name. It does nothing.
pub fn undos_are_read()
    ensures { UndosAreRead }
{}
