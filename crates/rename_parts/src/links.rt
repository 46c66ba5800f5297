//! The links that lack their source.

ghost use Rattle.std.specs.Prelude.{◌≡◌, Some};
ghost use Rattle.binding_model.specs.Facts.{least, unmatched_items};

use crate::leasts::take_earlier;
use rotor_base::{Goal, Link, Place};

/// The least item of a link that lacks its source.
pub fn find_least_unmatched(links: &[Link]) -> Option<Place>
    ensures { result ≡ least (unmatched_items links.now) }
{
    let mut least = None;
    let mut left = links.len();
    while left > 0 {
        left -= 1;
        if let Link {
            item: Goal::Decl(item),
            source: Goal::Missing,
        } = links[left]
        {
            least = Some(take_earlier(least, item));
        }
    }
    least
}
