//! Sets of places.
ghost use Rattle.std.specs.Prelude.{IfOk};
ghost use Rattle.shape_core.specs.Places.{HasPlaces};

use rotor_base::{Memory, Place};
use std::alloc::Global;
use std::collections::BTreeSet;

/// Some places, as a set.
///
/// # Errors
///
/// `Memory` alone.
pub fn set_of(alloc: Global, places: &[Place]) -> Result<BTreeSet<Place>, Memory>
    ensures { IfOk result (HasPlaces places.now) }
{
    let mut set = BTreeSet::new(alloc);
    for place in places {
        set.insert(*place)?;
    }
    Ok(set)
}
