//! The earlier of two places.

ghost use Rattle.std.specs.Prelude.{◌≡◌, Some};
ghost use Rattle.binding_model.specs.Facts.{earlier};

use capture_check::is_before;
use rotor_base::Place;

/// The earlier of two places, of which there may be but one.
pub fn take_earlier(best: Option<Place>, place: Place) -> Place
    ensures { Some result ≡ earlier best place }
{
    match best {
        Some(other) if !is_before(place, other) => other,
        _ => place,
    }
}
