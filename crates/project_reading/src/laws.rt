//! The laws of reading, each as the contract of a function.

ghost use Rattle.project_reading.specs.Laws.{OneProject, OneRefusal, PartsAreTrees, ReadIsSound, ReadOrRefused, TreesAreParts};
ghost use Rattle.project_reading.specs.Respelled.{RespellingKeepsTheLexemes, RespellingKeepsTheReading};

/// Files are read as one project at most, or refused for one reason at most, and not both.
pub fn one_reading()
    ensures project { OneProject }
    ensures refusal { OneRefusal }
    ensures apart { ReadOrRefused }
{}

/// What the files of a project are read as is sound.
pub fn read_is_sound()
    ensures { ReadIsSound }
{}

/// The tree of each source is the body or the interface of a unit of the project, and each body and interface is the
/// tree of a source.
pub fn trees_are_parts()
    ensures trees { TreesAreParts }
    ensures parts { PartsAreTrees }
{}

/// If names of places alone are changed, to value names, the respelled sources are cut into the respelled lexemes.
pub fn respelling_keeps_the_lexemes()
    ensures { RespellingKeepsTheLexemes }
{}

/// If names of places alone are changed, to value names, the respelled files are read as the respelled project. Its
/// units have the same order.
pub fn respelling_keeps_the_reading()
    ensures { RespellingKeepsTheReading }
{}
