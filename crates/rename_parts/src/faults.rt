//! The faults of a renaming, as refusals.

ghost use Rattle.std.specs.Prelude.{◌≡◌};
ghost use Rattle.rename_parts.specs.Faults.{refusal_of_fault};

use capture_check::Fault;
use rotor_base::Refusal;

/// A fault as a refusal.
pub fn refusal_of_fault(fault: Fault) -> Refusal
    ensures { result ≡ refusal_of_fault fault }
{
    match fault {
        Fault::Clash { first, again } => Refusal::Clash { first, again },
        Fault::Capture { at, was, would } => Refusal::Capture { at, was, would },
        Fault::Mislink { item, was, would } => Refusal::Mislink { item, was, would },
    }
}
