//! The places of a footprint.

ghost use Rattle.std.specs.Prelude.{◌≡◌, ◌≤◌, ◌++◌, IfOk, OnOk, length, map};
ghost use Rattle.value_at.specs.Places.{place_as, places_of};

use rename_parts::hit_places;
use rotor_base::{Facts, Foot, Memory, Place};
use std::alloc::Global;
use watched::set_of;

/// A place that declares or uses a value.
#[derive(Clone, Copy, Debug, PartialEq, Eq)]
pub struct ValuePlace {
    pub at: Place,
    pub is_declaration: bool,
}

/// The declarations of a footprint and the references to them, in the order of their places. `Memory` is the only
/// error.
pub fn places_of(alloc: Global, facts: &Facts, foot: &Foot) -> Result<Vec<ValuePlace>, Memory>
    ensures { IfOk result (λ list. list.items ≡ places_of facts.now.refs foot.now) }
{
    let declarations = foot.decls.as_slice();
    let members = set_of(alloc, declarations)?;
    let hits = hit_places(alloc, facts.refs.as_slice(), foot, &members)?;
    let mut list = Vec::new(alloc);
    add_places(&mut list, declarations, true)?;
    add_places(&mut list, &hits[declarations.len()..], false)?;
    list.sort_by_key(|place| place.at)?;
    Ok(list)
}

/// Adds some places, all of which declare, or all of which use.
fn add_places(
    list: &mut Vec<ValuePlace>,
    places: &[Place],
    is_declaration: bool,
) -> Result<(), Memory>
    ensures { OnOk result (list.new.items ≡ list.old.items ++ map (place_as is_declaration) places.now) }
{
    for place in places {
        list.push(ValuePlace {
            at: *place,
            is_declaration,
        })?;
    }
    Ok(())
}
