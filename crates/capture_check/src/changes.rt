//! The first of two lists' things whose goals differ.

ghost use Rattle.std.specs.Prelude.{◌≡◌, slice_get};
ghost use Rattle.capture_check.specs.Fault.{of_ref, of_link};
ghost use Rattle.capture_check.specs.Firsts.{IsFirstChange, Tells, earlier_change};

use crate::fault::Change;
use crate::order::is_before;
use rotor_base::{Goal, Link, Ref};

/// The first change of a reference's goal: of the least place.
pub fn first_capture(old: &[Ref], new: &[Ref]) -> Option<Change>
    ensures { IsFirstChange of_ref old.now new.now result }
{
    let mut least = None;
    for i in 0..old.len() {
        least = earlier_change(least, capture(thing_at(old, i), thing_at(new, i)));
    }
    least
}

/// The first change of a link's source: of the least item, and of its links the first.
pub fn first_mislink(old: &[Link], new: &[Link]) -> Option<Change>
    ensures { IsFirstChange of_link old.now new.now result }
{
    let mut least = None;
    for i in 0..old.len() {
        least = earlier_change(least, mislink(thing_at(old, i), thing_at(new, i)));
    }
    least
}

/// The change of one reference, if it has one.
fn capture(old: Option<Ref>, new: Option<Ref>) -> Option<Change>
    ensures { Tells of_ref old new result }
{
    let (Some(old), Some(new)) = (old, new) else {
        return None;
    };
    if old.at == new.at && !old.goal.equals(new.goal) {
        Some(Change {
            at: old.at,
            was: old.goal,
            would: new.goal,
        })
    } else {
        None
    }
}

/// The change of one link, if it has one.
fn mislink(old: Option<Link>, new: Option<Link>) -> Option<Change>
    ensures { Tells of_link old new result }
{
    let (Some(old), Some(new)) = (old, new) else {
        return None;
    };
    match old.item {
        Goal::Decl(at) if new.item.equals(old.item) && !old.source.equals(new.source) => Some(
            Change {
                at,
                was: old.source,
                would: new.source,
            },
        ),
        _ => None,
    }
}

/// The change of the lesser place, and of two there the first.
fn earlier_change(best: Option<Change>, found: Option<Change>) -> Option<Change>
    ensures { result ≡ earlier_change best found }
{
    match (best, found) {
        (Some(a), Some(b)) => Some(if is_before(b.at, a.at) { b } else { a }),
        (None, b) => b,
        (a, None) => a,
    }
}

/// The thing of a number, if there is one.
fn thing_at<T: Copy>(list: &[T], i: usize) -> Option<T>
    ensures { result ≡ slice_get list.now i }
{
    list.get(i).copied()
}
