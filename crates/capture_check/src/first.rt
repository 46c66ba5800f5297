//! The first fault of two lists of facts.

ghost use Rattle.std.specs.Prelude.{◌≡◌, IfOk, map};
ghost use Rattle.ml_trees.specs.View.{view_project};
ghost use Rattle.value_sites.specs.Sound.{IsSound};
ghost use Rattle.binding_model.specs.Facts.{facts};
ghost use Rattle.binding_model.specs.Renaming.{name_of};
ghost use Rattle.capture_check.specs.Fault.{IsFirstFault};
ghost use Rattle.capture_check.specs.Firsts.{fault_of};

use crate::changes::{first_capture, first_mislink};
use crate::fault::{Change, Fault, Repeat};
use crate::repeats::first_repeat;
use ml_trees::Project;
use rotor_base::{Facts, Goal, Memory};
use std::alloc::Global;
use value_places::PlacedProject;

/// The first clash, capture or mislink of a project, `project`, whose facts are `new`, against the facts that it had.
/// `Memory` is the only error.
pub fn first_fault(
    alloc: Global,
    project: &Project,
    old: &Facts,
    new: &Facts,
) -> Result<Option<Fault>, Memory>
    requires sound { IsSound (view_project project.now) }
    requires new { new.now ≡ facts (view_project project.now) }
    requires refs { map (λ r. r.at) old.now.refs ≡ map (λ r. r.at) new.now.refs }
    requires items { map (λ l. l.item) old.now.links ≡ map (λ l. l.item) new.now.links }
    requires groups { old.now.groups ≡ new.now.groups }
    ensures { IfOk result (IsFirstFault (name_of (view_project project.now)) old.now new.now) }
{
    let placed = PlacedProject::new(alloc, project)?;
    let repeat = first_repeat(alloc, &placed, new.groups.as_slice())?;
    let capture = first_capture(old.refs.as_slice(), new.refs.as_slice());
    let mislink = first_mislink(old.links.as_slice(), new.links.as_slice());
    Ok(fault_of(repeat, capture, mislink))
}

/// The first fault of three answers: a Clash precedes a Capture, and both precede a Mislink.
pub fn fault_of(
    repeat: Option<Repeat>,
    capture: Option<Change>,
    mislink: Option<Change>,
) -> Option<Fault>
    ensures { result ≡ fault_of repeat capture mislink }
{
    if let Some(Repeat { first, again }) = repeat {
        return Some(Fault::Clash { first, again });
    }
    if let Some(Change { at, was, would }) = capture {
        return Some(Fault::Capture { at, was, would });
    }
    let Change { at, was, would } = mislink?;
    Some(Fault::Mislink {
        item: Goal::Decl(at),
        was,
        would,
    })
}
