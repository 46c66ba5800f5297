//! The binders of a project.

ghost use Rattle.std.specs.Prelude.{◌≡◌, ◌++◌, IfOk, OnOk};
ghost use Rattle.rename_survey.specs.Listed.{binder_at, binders_in};

use crate::answer::Binder;
use rotor_base::{Memory, Name, Place};
use std::alloc::Global;
use value_places::PlacedProject;

/// All binders of a project, in the order of their places. `Memory` is the only error.
pub fn list_binders(alloc: Global, placed: &PlacedProject<'_>) -> Result<Vec<Binder>, Memory>
    ensures { IfOk result (λ list. list.items ≡ binders_in placed.now) }
{
    let mut list = Vec::new(alloc);
    for place in placed.binders() {
        add_binder(alloc, &mut list, placed, *place)?;
    }
    list.sort_by_key(|binder| binder.at)?;
    Ok(list)
}

/// Adds what is at a place, if a value is there.
fn add_binder(
    alloc: Global,
    list: &mut Vec<Binder>,
    placed: &PlacedProject<'_>,
    place: Place,
) -> Result<(), Memory>
    ensures { OnOk result (list.new.items ≡ list.old.items ++ binder_at placed.now place) }
{
    if let Some(site) = placed.site_at(place) {
        list.push(Binder {
            at: place,
            name: Name::new(alloc, site.name.as_bytes())?,
            operator: site.operator,
            pun: site.pun,
        })?;
    }
    Ok(())
}
