//! How an explanation ends.
ghost use Rattle.std.specs.Prelude.{◌≡◌};
ghost use Rattle.explain.specs.Ending.{ending_of as ending_for};

use rotor_base::Refusal;

/// How an explanation ends.
#[derive(Clone, Copy, Debug, PartialEq, Eq)]
pub enum Ending {
    /// The command would be done.
    Done,
    /// The renaming is refused.
    Refused,
    /// The folder is no project of the language.
    Project,
}

/// How the explanation of a refusal ends: of a renaming, or of a project.
pub(crate) fn ending_of(refusal: &Refusal) -> Ending
    ensures { result ≡ ending_for refusal.now }
{
    match refusal {
        Refusal::NoTarget
        | Refusal::Operator
        | Refusal::BadName
        | Refusal::SameName
        | Refusal::Outside { .. }
        | Refusal::Pun { .. }
        | Refusal::Blurred { .. }
        | Refusal::Grown { .. }
        | Refusal::Clash { .. }
        | Refusal::Capture { .. }
        | Refusal::Mislink { .. } => Ending::Refused,
        Refusal::Lex { .. }
        | Refusal::LongName { .. }
        | Refusal::Form { .. }
        | Refusal::Deep { .. }
        | Refusal::Syntax { .. }
        | Refusal::Cycle { .. }
        | Refusal::Duplicate { .. }
        | Refusal::Heavy { .. }
        | Refusal::Unmatched { .. }
        | Refusal::Memory => Ending::Project,
    }
}
