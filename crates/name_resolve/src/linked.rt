//! Links that are added to the state of a resolver, while their work is within its bound.

ghost use Rattle.std.specs.Prelude.{◌≡◌, ◌≤◌, ◌+◌, ◌++◌, OnOk, length, nat_lt};
ghost use Rattle.rotor_base.specs.Limits.{max_work};
ghost use Rattle.shape_core.specs.Shape.{vals, entries_in};
ghost use Rattle.shape_core.specs.Node.{entries_of};
ghost use Rattle.binding_model.specs.Steps.{MatchOf, PinOf, TieOf};
ghost use Rattle.binding_model.specs.Taken.{taken, Going};
ghost use Rattle.name_resolve.specs.Recorded.{tied_to, with_tie};

use crate::recording::{record_match, record_pin, record_tie};
use binding_model::Found;
use rotor_base::{Goal, Link, MAX_WORK, Memory};
use shape_core::{Shared, SharedEntry, entries, val_of};
use sig_match::{Matched, match_shapes, pin};
use std::alloc::Global;

/// Matches a source with a target. `Memory` is the only error.
#[tactic(auto, using(crate::proofs::Answers::answered_within, crate::proofs::Answers::answered_past, crate::proofs::Answers::answered_over))]
pub fn match_target(
    alloc: Global,
    found: &mut Found,
    source: &Shared,
    target: &Shared,
) -> Result<(), Memory>
    ensures { OnOk result (taken (Going found.old) (MatchOf source.now target.now) ≡ Going found.new) }
{
    if found.sums.work > MAX_WORK {
        found.sums.work = MAX_WORK + 1;
        return Ok(());
    }
    let room = (MAX_WORK - found.sums.work) as u32;
    match match_shapes(alloc, source, target, room)? {
        Matched::Whole { links, work } => {
            add_links(found, &links, work)?;
            record_match(alloc, &mut found.recorder, source, target)
        }
        Matched::Over => {
            found.sums.work = MAX_WORK + 1;
            Ok(())
        }
    }
}

/// Pins a module to the outside. `Memory` is the only error.
#[tactic(auto, using(crate::proofs::Answers::answered_within, crate::proofs::Answers::answered_past, crate::proofs::Answers::answered_over))]
pub fn pin_outside(alloc: Global, found: &mut Found, shape: &Shared) -> Result<(), Memory>
    ensures { OnOk result (taken (Going found.old) (PinOf shape.now) ≡ Going found.new) }
{
    if found.sums.work > MAX_WORK {
        found.sums.work = MAX_WORK + 1;
        return Ok(());
    }
    let room = (MAX_WORK - found.sums.work) as u32;
    match pin(alloc, shape, room)? {
        Matched::Whole { links, work } => {
            add_links(found, &links, work)?;
            record_pin(alloc, &mut found.recorder, shape)
        }
        Matched::Over => {
            found.sums.work = MAX_WORK + 1;
            Ok(())
        }
    }
}

/// Adds links and their work.
fn add_links(found: &mut Found, links: &[Link], work: u32) -> Result<(), Memory>
    requires { found.old.sums.work ≤ max_work }
    ensures { OnOk result (found.new ≡ record found.old { links = found.old.links ++ links.now; sums = record found.old.sums { work = found.old.sums.work + work } }) }
{
    for link in links {
        found.links.push(*link)?;
    }
    found.sums.work += work as u64;
    Ok(())
}

/// Ties the variables of a part of an or-pattern to those of the part before it, and back. `Memory` is the only error.
#[tactic(auto, using(crate::proofs::Answers::tied_within, crate::proofs::Answers::tied_over))]
pub fn tie_parts(found: &mut Found, part: &Shared, before: &Shared) -> Result<(), Memory>
    ensures { OnOk result (taken (Going found.old) (TieOf (entries_in part.now) (entries_in before.now)) ≡ Going found.new) }
{
    let work = count(entries(part)) + count(entries(before));
    if exceeds(found, work) {
        found.sums.work = MAX_WORK + 1;
        return Ok(());
    }
    found.sums.work += work;
    tie_to(found, entries(part), before)?;
    tie_to(found, entries(before), part)
}

/// Whether more work is over the bound.
fn exceeds(found: &Found, work: u64) -> bool
    ensures { result ≡ nat_lt max_work (found.now.sums.work + work) }
{
    found.sums.work > MAX_WORK || work > MAX_WORK - found.sums.work
}

/// The number of values among entries.
fn count(values: &[SharedEntry]) -> u64
    ensures is { result ≡ length (vals (entries_of values.now)) }
    ensures bound { result ≤ length values.now }
{
    let mut number = 0;
    for value in values {
        if let SharedEntry::Val(_, _) = value {
            number += 1;
        }
    }
    number
}

/// Adds a link from each value to what has its name in a part. The caller counts their work.
fn tie_to(found: &mut Found, values: &[SharedEntry], source: &Shared) -> Result<(), Memory>
    ensures { OnOk result (found.new ≡ tied_to found.old (entries_in source.now) (entries_of values.now)) }
{
    for value in values {
        if let SharedEntry::Val(name, goal) = value {
            tie(found, name.as_bytes(), *goal, source)?;
        }
    }
    Ok(())
}

/// Adds the link from one value.
fn tie(found: &mut Found, name: &[u8], goal: Goal, source: &Shared) -> Result<(), Memory>
    ensures { OnOk result (found.new ≡ with_tie found.old name.now goal (entries_in source.now)) }
{
    let from = match val_of(source, name) {
        Some(goal) => goal,
        None => Goal::Missing,
    };
    found.links.push(Link {
        item: goal,
        source: from,
    })?;
    record_tie(&mut found.recorder, name, goal, source)
}
