//! Looks' part on the links of a match and of a pinning.

ghost use Rattle.std.specs.Prelude.{◌≡◌, ◌≤◌, ◌∷◌, [], length, map, is_some, not, IfOk};
ghost use Rattle.shape_core.specs.Shape as shapes;
ghost use Rattle.shape_core.specs.Shape.{entries_in};
ghost use Rattle.shape_core.specs.Node.{entries_of};
ghost use Rattle.shape_core.specs.Looks as pure;
ghost use Rattle.sig_match.specs.Walk.{list_in, met_at, mets};
ghost use Rattle.sig_match.specs.Matched.{listed};
ghost use Rattle.sig_match.specs.Tests.{test_of, look_of, HasLooks, is_behind, kept_from, rest_of};

use crate::found::{Found, Meeting, Stop};
use crate::matching::match_both;
use crate::pinning::pin_shape;
use rotor_base::{Goal, LinkLook, Looks, Memory, Place, Row, Watch};
use shape_core::{
    LookSpot, Shared, SharedEntry, darks_of, entries, last_val_of, make_struct, place_of,
};
use std::alloc::Global;
use watched::Watched;

/// A test of a value by its name and its goal.
#[derive(Clone, Copy)]
pub enum Test {
    /// Its goal is in the footprint.
    InFoot,
    /// It has the old name, and its goal is not in the footprint.
    OtherOld,
    /// It has the new name.
    NamedNew,
}

fn passes(test: Test, watch: &Watched, name: &[u8], goal: Goal) -> bool
    ensures { result ≡ test_of test watch.now name.now goal }
{
    match test {
        Test::InFoot => watch.is_member(goal),
        Test::OtherOld => name == watch.as_watch().old.as_bytes() && !watch.is_member(goal),
        Test::NamedNew => name == watch.as_watch().new.as_bytes(),
    }
}

/// The last value of a list that a test accepts. The walk begins at the end of the list and stops at that value.
fn find_last(test: Test, watch: &Watched, list: &[SharedEntry]) -> Option<LookSpot>
    ensures { result ≡ pure.last_where (test_of test watch.now) (entries_of list.now) }
{
    find_last_from(test, watch, list, 0)
}

/// The same if its position is not below another one, at which the walk ends.
fn find_last_from(
    test: Test,
    watch: &Watched,
    list: &[SharedEntry],
    from: usize,
) -> Option<LookSpot>
    requires { from ≤ length list.now }
    ensures { result ≡ kept_from from (pure.last_where (test_of test watch.now) (entries_of list.now)) }
{
    let mut darks = 0;
    let mut left = list.len();
    while left > from {
        left -= 1;
        match &list[left] {
            SharedEntry::Val(x, goal) => {
                if passes(test, watch, x.as_bytes(), *goal) {
                    return Some((left as u64, place_of(*goal), darks));
                }
            }
            SharedEntry::Dark(_) => darks += 1,
            SharedEntry::Mod(_, _) => {}
            SharedEntry::Mty(_, _) => {}
        }
    }
    None
}

/// The last value of a structure that a test accepts. `InFoot` takes a step from the end and a look-up for each member
/// of the footprint at most, `OtherOld` a step for each later value of the old name, and `NamedNew` one look-up. It
/// takes no memory.
pub fn find_last_in(test: Test, watch: &Watched, shape: &Shared) -> Option<LookSpot>
    ensures { result ≡ pure.last_where (test_of test watch.now) (entries_in shape.now) }
{
    match test {
        Test::InFoot => last_member(watch, shape),
        Test::OtherOld => watch.last_other_of(shape),
        Test::NamedNew => last_val_of(shape, watch.as_watch().new.as_bytes()),
    }
}

/// The last member of the footprint in a structure. It walks from the end of the structure, for as many steps as the
/// footprint has members, before it asks for each member.
fn last_member(watch: &Watched, shape: &Shared) -> Option<LookSpot>
    ensures { result ≡ pure.last_where (pure.in_foot watch.now) (entries_in shape.now) }
{
    let list = entries(shape);
    let members = watch.as_watch().foot.decls.as_slice();
    let near = list.len().saturating_sub(members.len());
    match find_last_from(Test::InFoot, watch, list, near) {
        Some(spot) => Some(spot),
        None => {
            if near == 0 {
                None
            } else {
                watch.last_member_of(shape)
            }
        }
    }
}

/// The last value of a source list that a test accepts; nothing if the link is pinned.
fn source_where(test: Test, watch: &Watched, source: Option<&Shared>) -> Option<LookSpot>
    ensures { result ≡ pure.source_where (test_of test watch.now) (list_in source.entry) }
{
    match source {
        Some(shape) => find_last_in(test, watch, shape),
        None => None,
    }
}

/// The number of Dark entries of a source list and the place of the last one; none if the link is pinned.
fn source_darks(source: Option<&Shared>) -> (u64, Option<Place>)
    ensures number { result.0 ≡ length (pure.source_darks (list_in source.entry)) }
    ensures last { result.1 ≡ shapes.last_place (pure.source_darks (list_in source.entry)) }
{
    match source {
        Some(shape) => darks_of(shape),
        None => (0, None),
    }
}

// The entries after a value: those of a slice, or those behind a position of a structure.
#[derive(Clone, Copy)]
enum Rest<'a> {
    Listed(&'a [SharedEntry]),
    Behind(&'a Shared, usize),
}

fn is_later(test: Test, watch: &Watched, rest: Rest<'_>) -> bool
    ensures { result ≡ is_some (pure.last_where (test_of test watch.now) (rest_of rest.entry)) }
{
    match rest {
        Rest::Listed(list) => find_last(test, watch, list).is_some(),
        Rest::Behind(shape, at) => is_behind(find_last_in(test, watch, shape), at),
    }
}

fn is_behind(spot: Option<LookSpot>, at: usize) -> bool
    ensures { result ≡ is_behind at spot }
{
    match spot {
        Some(spot) => spot.0 > at as u64,
        None => false,
    }
}

fn is_pinned(source: Option<&Shared>) -> bool
    ensures { result ≡ not (is_some (list_in source.entry)) }
{
    source.is_none()
}

/// The look of the link of a value, if the value has the old or the new name. `rest` has the entries after the value in
/// its list, and `source` is the structure in which the link's source is looked up. It takes no memory.
pub fn look_of_value(
    name: &[u8],
    goal: Goal,
    rest: &[SharedEntry],
    source: Option<&Shared>,
    number: u64,
    watch: &Watched,
) -> Option<LinkLook>
    ensures { listed result ≡ pure.numbered number (pure.look watch.now name.now goal (entries_of rest.now) (list_in source.entry) ∷ []) }
{
    look_before(name, goal, Rest::Listed(rest), source, number, watch)
}

/// The look of the link of a value before these entries.
fn look_before(
    name: &[u8],
    goal: Goal,
    rest: Rest<'_>,
    source: Option<&Shared>,
    number: u64,
    watch: &Watched,
) -> Option<LinkLook>
    ensures { listed result ≡ pure.numbered number (pure.look watch.now name.now goal (rest_of rest.entry) (list_in source.entry) ∷ []) }
{
    let is_old = name == watch.as_watch().old.as_bytes();
    let is_new = name == watch.as_watch().new.as_bytes();
    if !(is_old || is_new) {
        return None;
    }
    let (darks, by) = source_darks(source);
    Some(LinkLook {
        number,
        item: place_of(goal),
        is_new,
        later_foot: is_later(Test::InFoot, watch, rest),
        later_old: is_later(Test::OtherOld, watch, rest),
        later_new: is_later(Test::NamedNew, watch, rest),
        pinned: is_pinned(source),
        darks,
        by,
        foot: source_where(Test::InFoot, watch, source),
        old: source_where(Test::OtherOld, watch, source),
        new: source_where(Test::NamedNew, watch, source),
    })
}

/// The look of a meeting.
fn look_at(meeting: &Meeting, number: u64, watch: &Watched) -> Option<LinkLook>
    ensures { listed result ≡ pure.numbered number (map (look_of watch.now) (met_at meeting.now)) }
{
    let list = entries(meeting.list);
    if meeting.at >= list.len() {
        return None;
    }
    let rest = Rest::Behind(meeting.list, meeting.at);
    match &list[meeting.at] {
        SharedEntry::Val(x, goal) => {
            look_before(x.as_bytes(), *goal, rest, meeting.source, number, watch)
        }
        SharedEntry::Mod(_, _) => None,
        SharedEntry::Mty(_, _) => None,
        SharedEntry::Dark(_) => None,
    }
}

/// The number of links of a meeting.
fn count_at(meeting: &Meeting) -> u64
    ensures number { result ≡ length (met_at meeting.now) }
    ensures bound { result ≤ 1 }
{
    let list = entries(meeting.list);
    if meeting.at >= list.len() {
        return 0;
    }
    match &list[meeting.at] {
        SharedEntry::Val(_, _) => 1,
        SharedEntry::Mod(_, _) => 0,
        SharedEntry::Mty(_, _) => 0,
        SharedEntry::Dark(_) => 0,
    }
}

fn looks_of(alloc: Global, meetings: &[Meeting], watch: &Watched) -> Result<Looks, Memory>
    ensures { IfOk result (λ looks. looks ≡ pure.looks_of (map (look_of watch.now) (mets meetings.now))) }
{
    let mut links = Row::new(alloc);
    let mut passed = 0;
    for meeting in meetings {
        match look_at(meeting, passed, watch) {
            Some(look) => links.push(look)?,
            None => {}
        }
        passed += count_at(meeting);
    }
    Ok(Looks {
        refs: Row::new(alloc),
        links,
        passed,
    })
}

/// The looks after a walk that reached its end, or `Memory`.
fn looks_after(
    alloc: Global,
    walked: Result<(), Stop>,
    found: &Found,
    watch: &Watched,
) -> Result<Looks, Memory>
    ensures { IfOk result (HasLooks walked found.now watch.now) }
{
    match walked {
        Ok(()) => looks_of(alloc, &found.meetings, watch),
        Err(_) => Err(Memory),
    }
}

/// Looks' part on the links of a source with a target: what each look-up of the old or of the new name would find. The
/// links are numbered from 0.
///
/// # Errors
///
/// `Memory` alone: there is no memory, or the work of the match is more than 4,294,967,295.
pub fn match_looks(
    alloc: Global,
    src: &Shared,
    tgt: &Shared,
    watch: &Watch,
) -> Result<Looks, Memory>
    ensures { IfOk result (λ looks. looks ≡ pure.match_looks watch.now src.now tgt.now) }
{
    watch_match(alloc, src, tgt, &Watched::new(alloc, watch)?)
}

/// Looks' part on the links of a shape that is pinned. Its links are numbered from 0, and its errors are those of
/// [`match_looks`].
pub fn pin_looks(alloc: Global, shape: &Shared, watch: &Watch) -> Result<Looks, Memory>
    ensures { IfOk result (λ looks. looks ≡ pure.pin_looks watch.now shape.now) }
{
    watch_pin(alloc, shape, &Watched::new(alloc, watch)?)
}

/// The looks of [`match_looks`], for a renaming that is watched already. The errors are the same.
pub fn watch_match(
    alloc: Global,
    src: &Shared,
    tgt: &Shared,
    watch: &Watched,
) -> Result<Looks, Memory>
    ensures { IfOk result (λ looks. looks ≡ pure.match_looks watch.now src.now tgt.now) }
{
    let empty = make_struct(alloc, Vec::new(alloc))?;
    let mut found = Found {
        meetings: Vec::new(alloc),
        work: 0,
    };
    let walked = match_both(src, tgt, &empty, u32::MAX, &mut found);
    looks_after(alloc, walked, &found, watch)
}

/// The looks of [`pin_looks`], for a renaming that is watched already. The errors are the same.
pub fn watch_pin(alloc: Global, shape: &Shared, watch: &Watched) -> Result<Looks, Memory>
    ensures { IfOk result (λ looks. looks ≡ pure.pin_looks watch.now shape.now) }
{
    let mut found = Found {
        meetings: Vec::new(alloc),
        work: 0,
    };
    let walked = pin_shape(shape, u32::MAX, &mut found);
    looks_after(alloc, walked, &found, watch)
}
