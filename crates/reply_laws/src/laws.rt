//! The law that there is a reply, as the contract of a function.

ghost use Rattle.reply_laws.specs.Laws.{RepliesAreGiven};

/// For all words and folders there is a reply.
pub fn replies_are_given()
    ensures { RepliesAreGiven }
{}
