//! How a call of the program ends.
ghost use Rattle.std.specs.Prelude.{◌≡◌};
ghost use Rattle.command_replies.specs.Said.{status_of, status_of_refusal};

use rotor_base::{Outcome, Refusal};

/// How a call of the program ends.
#[derive(Clone, Copy, Debug, PartialEq, Eq)]
pub enum Status {
    /// The command is done.
    Done,
    /// The renaming is refused.
    Refused,
    /// The words have none of the forms.
    Usage,
    /// The folder is no project of the language.
    Project,
    /// The folder failed.
    TreeFault,
    /// The output failed.
    SinkFault,
    /// There was no memory.
    Memory,
}

impl Status {
    ghost use Rattle.std.specs.Prelude.{◌≡◌};
    ghost use Rattle.command_replies.specs.Status.{code_of};

    /// The exit code of the program.
    pub fn code(self) -> u8
        ensures { result ≡ code_of self }
    {
        match self {
            Status::Done => 0,
            Status::Refused => 1,
            Status::Usage => 2,
            Status::Project => 3,
            Status::TreeFault => 4,
            Status::SinkFault => 5,
            Status::Memory => 6,
        }
    }
}

/// The status of an outcome.
pub fn status_of(outcome: &Outcome) -> Status
    ensures { result ≡ status_of outcome.now }
{
    match outcome {
        Outcome::Done(_) | Outcome::Checked(_) | Outcome::Shown(_) | Outcome::Sampled(_) => {
            Status::Done
        }
        Outcome::Refused(refusal) => status_of_refusal(refusal),
        Outcome::NotLoaded(_) => Status::Project,
        Outcome::BadWords => Status::Usage,
    }
}

/// The status of a refusal: of a renaming, of a project, or for want of memory.
pub fn status_of_refusal(refusal: &Refusal) -> Status
    ensures { result ≡ status_of_refusal refusal.now }
{
    match refusal {
        Refusal::NoTarget
        | Refusal::Operator
        | Refusal::BadName
        | Refusal::SameName
        | Refusal::Outside { .. }
        | Refusal::Pun { .. }
        | Refusal::Blurred { .. }
        | Refusal::Grown { .. }
        | Refusal::Clash { .. }
        | Refusal::Capture { .. }
        | Refusal::Mislink { .. } => Status::Refused,
        Refusal::Lex { .. }
        | Refusal::LongName { .. }
        | Refusal::Form { .. }
        | Refusal::Deep { .. }
        | Refusal::Syntax { .. }
        | Refusal::Cycle { .. }
        | Refusal::Duplicate { .. }
        | Refusal::Heavy { .. }
        | Refusal::Unmatched { .. } => Status::Project,
        Refusal::Memory => Status::Memory,
    }
}
