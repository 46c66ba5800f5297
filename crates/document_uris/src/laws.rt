//! The laws of documents' URIs.
ghost use Rattle.document_uris.specs.Laws.{NamesItsFile, HasOneReading};

/// A URI names one file at most.
pub fn readings_are_one()
    ensures { HasOneReading }
{}

/// The URI that is written for a file names that file.
pub fn written_uris_name_their_files()
    ensures { NamesItsFile }
{}
