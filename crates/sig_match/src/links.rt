//! The links of a match and of a pinning.

ghost use Rattle.std.specs.Prelude.{◌≡◌, IfOk, map};
ghost use Rattle.shape_core.specs.Shape.{entries_in};
ghost use Rattle.shape_core.specs.Links as links;
ghost use Rattle.sig_match.specs.Walk.{Walks, trace_of, list_in, met_at, mets, met};
ghost use Rattle.sig_match.specs.Matched.{IsMatched, IsAnswer, listed, link_of};

use crate::found::{Found, Meeting, Stop};
use crate::matching::match_both;
use crate::pinning::pin_shape;
use rotor_base::{Goal, Link, Memory};
use shape_core::{Shared, SharedEntry, entries, is_shown, make_struct, val_of};
use std::alloc::Global;

/// The answer of a match or of a pinning.
#[derive(Drop)]
pub enum Matched {
    /// The links in order, and the work of finding them.
    Whole { links: Vec<Link>, work: u32 },
    /// The work is more than the room.
    Over,
}

/// The links of a source with a target: what the source has for each value of the target. It is `Over` exactly if the
/// work is more than `room`, and ends once it has done that much. `Memory` is the only error.
pub fn match_shapes(alloc: Global, src: &Shared, tgt: &Shared, room: u32) -> Result<Matched, Memory>
    ensures { IfOk result (IsMatched room (links.links src.now tgt.now)) }
{
    let empty = make_struct(alloc, Vec::new(alloc))?;
    let mut found = Found {
        meetings: Vec::new(alloc),
        work: 0,
    };
    let walked = match_both(src, tgt, &empty, room, &mut found);
    make_matched(alloc, walked, &found)
}

/// The links of a shape that is pinned: each of its values is linked with the outside. It is `Over` exactly if the work
/// is more than `room`, and ends once it has done that much. `Memory` is the only error.
pub fn pin(alloc: Global, shape: &Shared, room: u32) -> Result<Matched, Memory>
    ensures { IfOk result (IsMatched room (links.pinned shape.now)) }
{
    let mut found = Found {
        meetings: Vec::new(alloc),
        work: 0,
    };
    let walked = pin_shape(shape, room, &mut found);
    make_matched(alloc, walked, &found)
}

/// The answer after a walk.
fn make_matched(alloc: Global, walked: Result<(), Stop>, found: &Found) -> Result<Matched, Memory>
    ensures { IfOk result (IsAnswer walked found.now) }
{
    match walked {
        Ok(()) => {
            let links = links_of(alloc, &found.meetings)?;
            Ok(Matched::Whole {
                links,
                work: found.work,
            })
        }
        Err(Stop::Over) => Ok(Matched::Over),
        Err(Stop::Memory) => Err(Memory),
    }
}

fn links_of(alloc: Global, meetings: &[Meeting]) -> Result<Vec<Link>, Memory>
    ensures { IfOk result (λ links. links.items ≡ map link_of (mets meetings.now)) }
{
    let mut links = Vec::new(alloc);
    for meeting in meetings {
        match link_at(meeting) {
            Some(link) => links.push(link)?,
            None => {}
        }
    }
    Ok(links)
}

fn link_at(meeting: &Meeting) -> Option<Link>
    ensures { listed result ≡ map link_of (met_at meeting.now) }
{
    let list = entries(meeting.list);
    if meeting.at >= list.len() {
        return None;
    }
    match &list[meeting.at] {
        SharedEntry::Val(x, goal) => {
            let source = if is_shown(meeting.list, meeting.at) {
                source_of(meeting.source, x.as_bytes())
            } else {
                Goal::Hidden
            };
            Some(Link {
                item: *goal,
                source,
            })
        }
        SharedEntry::Mod(_, _) => None,
        SharedEntry::Mty(_, _) => None,
        SharedEntry::Dark(_) => None,
    }
}

/// What the look-up of a visible value gives, or `Outside` if the value is pinned.
fn source_of(source: Option<&Shared>, name: &[u8]) -> Goal
    ensures { result ≡ links.source_of (list_in source.entry) name.now }
{
    match source {
        Some(shape) => match val_of(shape, name) {
            Some(goal) => goal,
            None => Goal::Missing,
        },
        None => Goal::Outside,
    }
}
