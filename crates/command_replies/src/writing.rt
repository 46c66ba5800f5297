//! How `rename` writes.

/// How `rename` writes the files that it changes.
#[derive(Clone, Copy, Debug, PartialEq, Eq)]
pub enum Writing {
    /// It prints what it would change, and writes nothing.
    Show,
    /// It writes the changed files (`--write`).
    Write,
    /// It writes a plan and opens the gate, then writes the changed files, and then closes the gate (`--safe`).
    Safe,
}

impl Writing {
    ghost use Rattle.std.specs.Prelude.{◌≡◌};
    ghost use Rattle.command_replies.specs.Writing.{is_writing, writing_of};

    /// How `rename` with these flags writes. No words have both.
    pub fn from_flags(write: bool, safe: bool) -> Self
        ensures { result ≡ writing_of write safe }
    {
        if safe {
            Writing::Safe
        } else if write {
            Writing::Write
        } else {
            Writing::Show
        }
    }

    /// Whether it writes, so that the gate has to be closed.
    pub fn is_writing(self) -> bool
        ensures { result ≡ is_writing self }
    {
        match self {
            Writing::Show => false,
            Writing::Write | Writing::Safe => true,
        }
    }
}
