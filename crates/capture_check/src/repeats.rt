//! The first name that occurs twice in a group.

ghost use Rattle.std.specs.Prelude.{◌≡◌, ◌∷◌, ℕ, List, [], IfOk, OnOk, Some, bytes_eq, if◌then◌else◌};
ghost use Rattle.name_tables.specs.Names.{at};
ghost use Rattle.capture_check.specs.Firsts.{IsFirstRepeat, is_lesser, earlier_repeat, repeat_of, lesser};
ghost use Rattle.value_places.specs.Placed.{name_in};
ghost use Rattle.capture_check.specs.Named.{named};

use crate::fault::Repeat;
use crate::named::{BinderNames, name_at};
use crate::order::is_before;
use name_tables::Names;
use rotor_base::{Memory, Place, Row};
use std::alloc::Global;
use std::collections::BTreeSet;
use value_places::PlacedProject;

/// The first repeat of a name in a group: of the least place that repeats one, and the least place of that name there.
/// `Memory` is the only error.
pub fn first_repeat(
    alloc: Global,
    placed: &PlacedProject<'_>,
    groups: &[Row<Place>],
) -> Result<Option<Repeat>, Memory>
    ensures { IfOk result (IsFirstRepeat (name_in placed.now) groups.now) }
{
    let none = BTreeSet::new(alloc);
    let names = BinderNames {
        placed,
        renamed: &none,
        new: &[],
    };
    first_repeat_of(alloc, &names, groups)
}

/// The first repeat of a name in a group, if some binders have a new name. `Memory` is the only error.
pub fn first_repeat_of(
    alloc: Global,
    names: &BinderNames<'_, '_>,
    groups: &[Row<Place>],
) -> Result<Option<Repeat>, Memory>
    ensures { IfOk result (IsFirstRepeat (named names.now) groups.now) }
{
    let mut least = None;
    for group in groups {
        let found = repeat_in(alloc, names, group.as_slice())?;
        least = earlier_repeat(least, found);
    }
    Ok(least)
}

/// The first repeat of a name in one group.
fn repeat_in(
    alloc: Global,
    names: &BinderNames<'_, '_>,
    group: &[Place],
) -> Result<Option<Repeat>, Memory>
    ensures { IfOk result (IsFirstRepeat (named names.now) (group.now ∷ [])) }
{
    if group.len() < 2 {
        return Ok(None);
    }
    let mut seen = Names::new(alloc);
    let mut least = None;
    for place in group {
        let found = add_place(alloc, &mut seen, name_at(names, *place), *place)?;
        least = earlier_repeat(least, found);
    }
    Ok(least)
}

/// Adds a place of a name, and keeps the least place of the name. The result is the repeat that the place makes with
/// the least one before.
fn add_place(
    alloc: Global,
    seen: &mut Names<Place>,
    name: &[u8],
    place: Place,
) -> Result<Option<Repeat>, Memory>
    ensures found { IfOk result (λ found. found ≡ repeat_of (at seen.old name.now) place) }
    ensures seen { OnOk result ((x : List ℕ) → at seen.new x ≡ (if bytes_eq name.now x then Some (lesser (at seen.old name.now) place) else at seen.old x)) }
{
    let before = seen.get(name);
    let least = take_lesser(before, place);
    seen.put(alloc, name, least)?;
    Ok(repeat_of(before, place))
}

/// The lesser of two places, or the second if there is no first.
fn take_lesser(before: Option<Place>, place: Place) -> Place
    ensures { result ≡ lesser before place }
{
    match before {
        Some(other) if is_before(other, place) => other,
        _ => place,
    }
}

/// The repeat that one more place of a name makes with the least of those before it.
fn repeat_of(before: Option<Place>, place: Place) -> Option<Repeat>
    ensures { result ≡ repeat_of before place }
{
    let other = before?;
    if is_before(other, place) {
        Some(Repeat {
            first: other,
            again: place,
        })
    } else if is_before(place, other) {
        Some(Repeat {
            first: place,
            again: other,
        })
    } else {
        None
    }
}

/// The lesser of two repeats.
fn earlier_repeat(best: Option<Repeat>, found: Option<Repeat>) -> Option<Repeat>
    ensures { result ≡ earlier_repeat best found }
{
    match (best, found) {
        (Some(a), Some(b)) => Some(if is_lesser(b, a) { b } else { a }),
        (None, b) => b,
        (a, None) => a,
    }
}

/// Whether a repeat is less than another: by its later place, then its first.
fn is_lesser(a: Repeat, b: Repeat) -> bool
    ensures { result ≡ is_lesser a b }
{
    is_before(a.again, b.again) || (a.again == b.again && is_before(a.first, b.first))
}
