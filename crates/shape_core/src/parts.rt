//! Look-ups over the parts of a scope, from the last one back.

ghost use Rattle.std.specs.Prelude.{◌≡◌, ◌<◌, ◌≤◌, ◌+◌, ◌^◌, ◌++◌, ℕ, IfOk, length, option_copied, slice_get, take, vec_len};
ghost use Rattle.shape_core.specs.Looks as looks;
ghost use Rattle.shape_core.specs.Shape as pure;
ghost use Rattle.shape_core.specs.Node.{entries_of};
ghost use Rattle.shape_core.specs.Parts.{parts_list};
ghost use Rattle.shape_core.specs.Places.{HasPlaces};
ghost use Rattle.shape_core.specs.View.{Sees};
ghost use Rattle.rotor_base.specs.declared.looks.Watch.{Watch};

use crate::index::LookSpot;
use crate::joins::{count_both, last_of_both, see_both};
use crate::own::OwnEntries;
use crate::part::Part;
use crate::shape::{Seen, see_nothing};
use crate::shared::{Shared, SharedEntry};
use rotor_base::{Memory, Place};
use std::alloc::Global;
use std::collections::BTreeSet;

/// The entry at a position among the entries of some parts. The parts have `number` entries.
pub fn entry_in(parts: &[Part], number: usize, at: usize) -> Option<&SharedEntry>
    requires { number ≡ length (parts_list parts.now) }
    ensures { option_copied result ≡ slice_get (parts_list parts.now) at }
{
    match parts.split_last() {
        None => None,
        Some((part, rest)) => {
            let before = number - part.len();
            if at < before {
                entry_in(rest, before, at)
            } else {
                part.get(at - before)
            }
        }
    }
}

/// What a look-up of a value sees.
pub fn seen_in(parts: &[Part], name: &[u8]) -> Seen
    requires { length (parts_list parts.now) < 2 ^ 64 }
    ensures { Sees (entries_of (parts_list parts.now)) name.now result }
{
    match parts.split_last() {
        None => see_nothing(),
        Some((part, rest)) => {
            let seen = part.seen(name);
            if seen.found.is_some() {
                return seen;
            }
            see_both(seen_in(rest, name), seen)
        }
    }
}

/// The shape of the last module of that name.
pub fn module_in<'a>(parts: &'a [Part], name: &[u8]) -> Option<&'a Shared>
    ensures { option_copied result ≡ pure.find_mod (entries_of (parts_list parts.now)) name.now }
{
    match parts.split_last() {
        None => None,
        Some((part, rest)) => match part.module(name) {
            Some(shape) => Some(shape),
            None => module_in(rest, name),
        },
    }
}

/// The shape of the last module type of that name.
pub fn module_type_in<'a>(parts: &'a [Part], name: &[u8]) -> Option<&'a Shared>
    ensures { option_copied result ≡ pure.find_mty (entries_of (parts_list parts.now)) name.now }
{
    match parts.split_last() {
        None => None,
        Some((part, rest)) => match part.module_type(name) {
            Some(shape) => Some(shape),
            None => module_type_in(rest, name),
        },
    }
}

/// The number of Dark entries, and the place of the last one.
pub fn darks_in_parts(parts: &[Part]) -> (u64, Option<Place>)
    requires { length (parts_list parts.now) < 2 ^ 64 }
    ensures number { result.0 ≡ length (pure.darks (entries_of (parts_list parts.now))) }
    ensures last { result.1 ≡ pure.last_place (pure.darks (entries_of (parts_list parts.now))) }
{
    match parts.split_last() {
        None => (0, None),
        Some((part, rest)) => count_both(darks_in_parts(rest), part.darks()),
    }
}

/// The last value of a name. The parts have `number` entries.
pub fn last_value_in(parts: &[Part], number: usize, name: &[u8]) -> Option<LookSpot>
    requires { number ≡ length (parts_list parts.now) }
    ensures { result ≡ looks.last_where (looks.of_name name.now) (entries_of (parts_list parts.now)) }
{
    match parts.split_last() {
        None => None,
        Some((part, rest)) => {
            let before = number - part.len();
            let later = part.last_val(name);
            let earlier = match later {
                Some(_) => None,
                None => last_value_in(rest, before, name),
            };
            last_of_both(earlier, later, before, part.darks().0)
        }
    }
}

/// Cuts the last of some parts, which have `number` entries, more than `len`. Its structure keeps the entries before
/// `len`, or goes whole. The result has the entries that then follow the parts, and the number of the parts' entries.
pub fn cut_last(
    alloc: Global,
    parts: &mut Vec<Part>,
    number: usize,
    len: usize,
) -> (OwnEntries, usize)
    requires number { number ≡ length (parts_list parts.old.items) }
    requires more { len < number }
    ensures counted { result.1 ≡ length (parts_list parts.new.items) }
    ensures cut { (n : ℕ) × (len ≤ n) × (n ≤ number) × (parts_list parts.new.items ++ result.0 ≡ take n (parts_list parts.old.items)) }
    ensures less { vec_len parts.new + result.1 < vec_len parts.old + number }
{
    let last = parts.len() - 1;
    let part = &mut parts[last];
    let before = number - part.opened.len();
    if before < len {
        part.opened.cut(len - before);
        return (OwnEntries::new(alloc), len);
    }
    match parts.pop() {
        None => (OwnEntries::new(alloc), 0),
        Some(part) => {
            let own = part.into_own();
            let number = before - own.len();
            (own, number)
        }
    }
}

/// The last value among the first `count` parts whose goal is among some declarations, of which the caller has the set.
/// These parts have `number` entries. `Memory` is the only error.
pub fn last_member_in(
    parts: &mut [Part],
    count: usize,
    number: usize,
    decls: &[Place],
    set: &BTreeSet<Place>,
) -> Result<Option<LookSpot>, Memory>
    requires places { HasPlaces decls.now set.now }
    requires count { count ≤ length parts.old }
    requires number { number ≡ length (parts_list (take count parts.old)) }
    ensures found { IfOk result (λ spot. (w : Watch) → w.foot.decls ≡ decls.now → spot ≡ looks.last_where (looks.in_foot w) (entries_of (parts_list (take count parts.old)))) }
    ensures kept { parts.new ≡ parts.old }
{
    if count == 0 {
        return Ok(None);
    }
    let last = count - 1;
    let part = &mut parts[last];
    let before = number - part.len();
    let (darks, _) = part.darks();
    let later = part.last_member(decls, set)?;
    let earlier = match later {
        Some(_) => None,
        None => last_member_in(parts, last, before, decls, set)?,
    };
    Ok(last_of_both(earlier, later, before, darks))
}
