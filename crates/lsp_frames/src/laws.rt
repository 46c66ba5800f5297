//! The laws of messages.

ghost use Rattle.lsp_frames.specs.Laws.{ComesBack, HaveOneReading};

/// Law: the bytes of a reader begin with one of these alone: their end, a message with its body and what is behind it,
/// a broken header, a message that is too long, one that the input ends in.
pub fn readings_are_one()
    ensures { HaveOneReading }
{}

/// Law: what a call writes for a body within the limit is read back as that body, and what is behind it is left.
pub fn messages_are_read_back()
    ensures { ComesBack }
{}
