//! The messages of refusals of a project, with the places that a reading finds.
ghost use Rattle.std.specs.Prelude.{◌≡◌, ◌≤◌, All, IfOk, length, map, slice_get};
ghost use Rattle.std.specs.Option.{option_copied};
ghost use Rattle.rotor_base.specs.Limits.{max_file_bytes};
ghost use Rattle.refusal_words.specs.Cut.{view_cut};
ghost use Rattle.refusal_places.specs.Placed.{SaysPlaced, SaysSyntax, SaysWhole, cycle_unit as cycle_unit_of, syntax_file as syntax_file_of};

use crate::cycle::cycle_message;
use crate::unread::unread_message;
use messages::Message;
use refusal_words::{CutSource, project_message};
use rotor_base::{Memory, Refusal};
use std::alloc::Global;

/// The message of a refusal of a project; of another refusal, `None`. The one error is want of memory.
#[tactic(auto, using(crate::proofs::Placing::said_syntax, crate::proofs::Placing::said_other))]
pub fn placed_message(
    alloc: Global,
    cuts: &[CutSource<'_>],
    refusal: &Refusal,
) -> Result<Option<Message>, Memory>
    requires { All (λ cut. length cut.tokens.items ≤ max_file_bytes) cuts.now }
    ensures { IfOk result (SaysPlaced (map view_cut cuts.now) refusal.now) }
{
    match syntax_file(refusal) {
        Some(file) => syntax_message(alloc, cuts, file),
        None => whole_message(alloc, cuts, refusal),
    }
}

/// The message of a refusal of sources that are read; of another refusal, `None`.
#[tactic(auto, using(crate::proofs::Placing::said_circle, crate::proofs::Placing::said_whole))]
fn whole_message(
    alloc: Global,
    cuts: &[CutSource<'_>],
    refusal: &Refusal,
) -> Result<Option<Message>, Memory>
    requires { All (λ cut. length cut.tokens.items ≤ max_file_bytes) cuts.now }
    ensures { IfOk result (SaysWhole (cycle_unit_of refusal.now) (map view_cut cuts.now) refusal.now) }
{
    match cycle_unit(refusal) {
        Some(unit) => {
            let message = cycle_message(alloc, cuts, unit)?;
            Ok(Some(message))
        }
        None => project_message(alloc, cuts, refusal),
    }
}

/// The unit that a refusal says needs itself through others.
fn cycle_unit(refusal: &Refusal) -> Option<&[u8]>
    ensures { option_copied result ≡ cycle_unit_of refusal.now }
{
    match refusal {
        Refusal::Cycle { unit } => Some(unit.as_bytes()),
        _ => None,
    }
}

/// The source that a refusal says is not read.
fn syntax_file(refusal: &Refusal) -> Option<u32>
    ensures { result ≡ syntax_file_of refusal.now }
{
    match refusal {
        Refusal::Syntax { file } => Some(*file),
        _ => None,
    }
}

/// The message of the source of a number that is not read, if it is there.
#[tactic(auto, using(crate::proofs::Placing::said_cut, crate::proofs::Placing::said_none, crate::proofs::Placing::short_cut))]
fn syntax_message(
    alloc: Global,
    cuts: &[CutSource<'_>],
    file: u32,
) -> Result<Option<Message>, Memory>
    requires { All (λ cut. length cut.tokens.items ≤ max_file_bytes) cuts.now }
    ensures { IfOk result (SaysSyntax (slice_get (map view_cut cuts.now) file)) }
{
    if file as usize >= cuts.len() {
        return Ok(None);
    }
    let message = unread_message(alloc, &cuts[file as usize])?;
    Ok(Some(message))
}
