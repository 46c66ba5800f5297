//! The names of a project's binders, with a new one for some of them.

ghost use Rattle.std.specs.Prelude.{◌≡◌};
ghost use Rattle.capture_check.specs.Named.{named};

use rotor_base::Place;
use std::collections::BTreeSet;
use value_places::PlacedProject;

/// The names of a project's binders, with a new one for those in a set.
#[derive(Clone, Copy)]
pub struct BinderNames<'n, 'p> {
    pub placed: &'n PlacedProject<'p>,
    pub renamed: &'n BTreeSet<Place>,
    pub new: &'n [u8],
}

/// The name that the binder at a place has after the renaming: the new one if the place is renamed, or else its own.
pub fn name_at<'n>(names: &BinderNames<'n, '_>, place: Place) -> &'n [u8]
    ensures { result.now ≡ named names.now place }
{
    if names.renamed.contains(&place) {
        names.new
    } else {
        names.placed.name_at(place)
    }
}
