//! Matching: the values of a target are linked with what a source has of their names.

ghost use Rattle.std.specs.Prelude.{◌≡◌, ◌+◌, option_copied};
ghost use Rattle.shape_core.specs.Shape.{Struct, entries_in, entries_from, find_mod, find_mty, none};
ghost use Rattle.shape_core.specs.Node.{and_then};
ghost use Rattle.shape_core.specs.Links as links;
ghost use Rattle.sig_match.specs.Walk.{Walks, trace_of, met};
ghost use Rattle.sig_match.specs.Parts.{match_part, match_first, has_one_kind};

use crate::found::{Found, Meeting, Stop, meet, spend};
use crate::pinning::{pin_shape, pin_values};
use shape_core::{Shared, SharedEntry, entries, is_shown, kind, mod_of, mty_of, param, result};

/// Match of a source with a target. `empty` is the empty structure. The errors are `Over`, if the work would be more
/// than the room, and `Memory`.
#[cycle(matching)]
pub fn match_both<'a>(
    src: &'a Shared,
    tgt: &'a Shared,
    empty: &'a Shared,
    room: u32,
    found: &mut Found<'a>,
) -> Result<(), Stop>
    requires { empty.now ≡ Struct none }
    ensures { Walks result room (trace_of found.old) (trace_of found.new) (links.matched met src.now tgt.now) }
{
    spend(room, found)?;
    if !have_one_kind(src, tgt) {
        pin_shape(tgt, room, found)?;
        return pin_shape(src, room, found);
    }
    match_entries(src, tgt, empty, room, found)?;
    match_options(param(tgt), param(src), empty, room, found)?;
    match_options(result(src), result(tgt), empty, room, found)
}

fn have_one_kind(src: &Shared, tgt: &Shared) -> bool
    ensures { result ≡ has_one_kind src.now tgt.now }
{
    kind(src) == kind(tgt)
}

#[cycle(matching)]
fn match_options<'a>(
    src: Option<&'a Shared>,
    tgt: Option<&'a Shared>,
    empty: &'a Shared,
    room: u32,
    found: &mut Found<'a>,
) -> Result<(), Stop>
    requires { empty.now ≡ Struct none }
    ensures { Walks result room (trace_of found.old) (trace_of found.new) (match_part (option_copied src.entry) (option_copied tgt.entry)) }
{
    match src {
        Some(source) => match tgt {
            Some(target) => match_both(source, target, empty, room, found),
            None => Ok(()),
        },
        None => Ok(()),
    }
}

#[cycle(matching)]
fn match_entries<'a>(
    src: &'a Shared,
    tgt: &'a Shared,
    empty: &'a Shared,
    room: u32,
    found: &mut Found<'a>,
) -> Result<(), Stop>
    requires { empty.now ≡ Struct none }
    ensures { Walks result room (trace_of found.old) (trace_of found.new) (links.match_entries met (links.matched met) (entries_in src.now) (entries_in tgt.now)) }
{
    let list = entries(tgt);
    for at in 0..list.len() {
        match_entry(src, tgt, at, &list[at], empty, room, found)?;
    }
    Ok(())
}

/// The entry of a target at a position.
#[cycle(matching)]
fn match_entry<'a>(
    src: &'a Shared,
    tgt: &'a Shared,
    at: usize,
    entry: &'a SharedEntry,
    empty: &'a Shared,
    room: u32,
    found: &mut Found<'a>,
) -> Result<(), Stop>
    requires empty { empty.now ≡ Struct none }
    requires entry { entries_from at (entries_in tgt.now) ≡ and_then entry.now (entries_from (at + 1) (entries_in tgt.now)) }
    ensures { Walks result room (trace_of found.old) (trace_of found.new) (match_first (entries_in src.now) (entries_from at (entries_in tgt.now))) }
{
    match entry {
        SharedEntry::Val(_, _) => {
            let meeting = Meeting {
                list: tgt,
                at,
                source: Some(src),
            };
            meet(meeting, room, found)
        }
        SharedEntry::Mod(x, target) => {
            spend(room, found)?;
            if is_shown(tgt, at) {
                let source = part_or(mod_of(src, x.as_bytes()), empty);
                match_both(source, target, empty, room, found)
            } else {
                Ok(())
            }
        }
        SharedEntry::Mty(x, target) => {
            spend(room, found)?;
            if is_shown(tgt, at) {
                let source = part_or(mty_of(src, x.as_bytes()), empty);
                match_ways(source, target, empty, room, found)
            } else {
                Ok(())
            }
        }
        SharedEntry::Dark(_) => {
            spend(room, found)?;
            pin_values(src, room, found)
        }
    }
}

fn part_or<'a>(part: Option<&'a Shared>, empty: &'a Shared) -> &'a Shared
    requires { empty.now ≡ Struct none }
    ensures { result.now ≡ links.or_empty (option_copied part.entry) }
{
    match part {
        Some(shape) => shape,
        None => empty,
    }
}

/// Two module types, matched in both directions.
#[cycle(matching)]
fn match_ways<'a>(
    src: &'a Shared,
    tgt: &'a Shared,
    empty: &'a Shared,
    room: u32,
    found: &mut Found<'a>,
) -> Result<(), Stop>
    requires { empty.now ≡ Struct none }
    ensures { Walks result room (trace_of found.old) (trace_of found.new) (links.◌&◌ (links.matched met src.now tgt.now) (links.matched met tgt.now src.now)) }
{
    match_both(src, tgt, empty, room, found)?;
    match_both(tgt, src, empty, room, found)
}
