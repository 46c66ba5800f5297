//! Pinning: every value of a shape is linked with the outside.

ghost use Rattle.std.specs.Prelude.{◌≡◌, ◌+◌, option_copied};
ghost use Rattle.shape_core.specs.Shape.{entries_in, entries_from, none};
ghost use Rattle.shape_core.specs.Node.{and_then};
ghost use Rattle.shape_core.specs.Links as links;
ghost use Rattle.sig_match.specs.Walk.{Walks, trace_of, met};
ghost use Rattle.sig_match.specs.Parts.{pin_part, pin_first};

use crate::found::{Found, Meeting, Stop, meet, spend};
use shape_core::{Shared, SharedEntry, entries, is_shown, param, result, value_positions};

/// Pin of a shape. The errors are `Over`, if the work would be more than the room, and `Memory`.
#[cycle(pinning)]
pub fn pin_shape<'a>(shape: &'a Shared, room: u32, found: &mut Found<'a>) -> Result<(), Stop>
    ensures { Walks result room (trace_of found.old) (trace_of found.new) (links.pin met shape.now) }
{
    spend(room, found)?;
    pin_entries(shape, room, found)?;
    pin_option(param(shape), room, found)?;
    pin_option(result(shape), room, found)
}

#[cycle(pinning)]
fn pin_option<'a>(part: Option<&'a Shared>, room: u32, found: &mut Found<'a>) -> Result<(), Stop>
    ensures { Walks result room (trace_of found.old) (trace_of found.new) (pin_part (option_copied part.entry)) }
{
    match part {
        Some(shape) => pin_shape(shape, room, found),
        None => Ok(()),
    }
}

#[cycle(pinning)]
fn pin_entries<'a>(shape: &'a Shared, room: u32, found: &mut Found<'a>) -> Result<(), Stop>
    ensures { Walks result room (trace_of found.old) (trace_of found.new) (links.pin_entries met (entries_in shape.now)) }
{
    let list = entries(shape);
    for at in 0..list.len() {
        pin_entry(shape, at, &list[at], room, found)?;
    }
    Ok(())
}

/// The entry of a structure at a position.
#[cycle(pinning)]
fn pin_entry<'a>(
    shape: &'a Shared,
    at: usize,
    entry: &'a SharedEntry,
    room: u32,
    found: &mut Found<'a>,
) -> Result<(), Stop>
    requires { entries_from at (entries_in shape.now) ≡ and_then entry.now (entries_from (at + 1) (entries_in shape.now)) }
    ensures { Walks result room (trace_of found.old) (trace_of found.new) (pin_first (entries_from at (entries_in shape.now))) }
{
    match entry {
        SharedEntry::Val(_, _) => {
            let meeting = Meeting {
                list: shape,
                at,
                source: None,
            };
            meet(meeting, room, found)
        }
        SharedEntry::Mod(_, part) => {
            spend(room, found)?;
            if is_shown(shape, at) {
                pin_shape(part, room, found)
            } else {
                Ok(())
            }
        }
        SharedEntry::Mty(_, part) => {
            spend(room, found)?;
            if is_shown(shape, at) {
                pin_shape(part, room, found)
            } else {
                Ok(())
            }
        }
        SharedEntry::Dark(_) => spend(room, found),
    }
}

/// The values of a structure, pinned for a Dark entry of a target. The errors are `Over`, if the work would be more
/// than the room, and `Memory`.
pub fn pin_values<'a>(shape: &'a Shared, room: u32, found: &mut Found<'a>) -> Result<(), Stop>
    ensures { Walks result room (trace_of found.old) (trace_of found.new) (links.pin_vals met (entries_in shape.now)) }
{
    let positions = value_positions(shape);
    for at in positions {
        let meeting = Meeting {
            list: shape,
            at: *at,
            source: None,
        };
        meet(meeting, room, found)?;
    }
    Ok(())
}
