//! How a call of the program ends.

/// How a call of the program ends. The codes are those of `rotor`.
#[derive(Clone, Copy, Debug, PartialEq, Eq)]
pub enum ExitStatus {
    /// The command would be done.
    Done,
    /// The renaming is refused.
    Refused,
    /// The words have none of the forms.
    Usage,
    /// The folder is no project of the language.
    Project,
    /// The folder failed.
    TreeFault,
    /// The output failed.
    SinkFault,
    /// There was no memory.
    Memory,
}

impl ExitStatus {
    ghost use Rattle.std.specs.Prelude.{◌≡◌};
    ghost use Rattle.explain_main.specs.Code.{code_of};

    /// The exit code of the program.
    pub fn code(self) -> u8
        ensures { result ≡ code_of self }
    {
        match self {
            ExitStatus::Done => 0,
            ExitStatus::Refused => 1,
            ExitStatus::Usage => 2,
            ExitStatus::Project => 3,
            ExitStatus::TreeFault => 4,
            ExitStatus::SinkFault => 5,
            ExitStatus::Memory => 6,
        }
    }
}
