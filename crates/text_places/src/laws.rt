//! The laws of lines and columns.

ghost use Rattle.text_places.specs.Laws.{CharactersBegin, ComesBack, EachByteBegins};

/// Law: the position of an offset at which a character or a line end begins, or the text ends, names it. Such an offset
/// is the end of each front that is a text in UTF-8, but for one between CR and LF. As people count, it is each offset
/// within the text.
pub fn offsets_are_found_again()
    ensures back { ComesBack }
    ensures characters { CharactersBegin }
    ensures people { EachByteBegins }
{}
