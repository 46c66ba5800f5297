//! The law of replies, as the contract of a function.
ghost use Rattle.command_replies.specs.Laws.{RepliesAreOne};

/// A command over a folder has at most one reply.
pub fn replies_are_one()
    ensures { RepliesAreOne }
{}
