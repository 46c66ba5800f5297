//! What look-ups find in two lists of entries, one after the other, by what they find in each.

ghost use Rattle.std.specs.Prelude.{◌≡◌, ◌<◌, ◌^◌, List, ◌++◌, length, None};
ghost use Rattle.shape_core.specs.declared.shared.SharedEntry.{SharedEntry};
ghost use Rattle.shape_core.specs.Looks as looks;
ghost use Rattle.shape_core.specs.Shape as pure;
ghost use Rattle.shape_core.specs.Node.{entries_of};
ghost use Rattle.shape_core.specs.View.{Sees};

use crate::index::LookSpot;
use crate::shape::Seen;
use rotor_base::Place;

/// What a look-up of a value sees.
pub fn see_both(earlier: Seen, later: Seen) -> Seen
    ensures { (a b : List SharedEntry) (x : pure.Name) → length (a ++ b) < 2 ^ 64 → Sees (entries_of a) x earlier → Sees (entries_of b) x later → Sees (entries_of (a ++ b)) x result }
{
    match later.found {
        Some(_) => later,
        None => Seen {
            found: earlier.found,
            by: later.by.or(earlier.by),
            passed: earlier.passed.saturating_add(later.passed),
        },
    }
}

/// The number of Dark entries, and the place of the last one.
pub fn count_both(
    earlier: (u64, Option<Place>),
    later: (u64, Option<Place>),
) -> (u64, Option<Place>)
    ensures number { (a b : List SharedEntry) → length (a ++ b) < 2 ^ 64 → earlier.0 ≡ length (pure.darks (entries_of a)) → later.0 ≡ length (pure.darks (entries_of b)) → result.0 ≡ length (pure.darks (entries_of (a ++ b))) }
    ensures last { (a b : List SharedEntry) → earlier.1 ≡ pure.last_place (pure.darks (entries_of a)) → later.1 ≡ pure.last_place (pure.darks (entries_of b)) → result.1 ≡ pure.last_place (pure.darks (entries_of (a ++ b))) }
{
    (earlier.0.saturating_add(later.0), later.1.or(earlier.1))
}

/// The last value that a test accepts. The earlier list has `entries` entries, and the later one `darks` Dark entries.
/// What is found in the earlier list counts only if the later one has no such value.
pub fn last_of_both(
    earlier: Option<LookSpot>,
    later: Option<LookSpot>,
    entries: usize,
    darks: u64,
) -> Option<LookSpot>
    ensures { (test : looks.Test) (a b : List SharedEntry) → length (a ++ b) < 2 ^ 64 → entries ≡ length a → darks ≡ length (pure.darks (entries_of b)) → (later ≡ None → earlier ≡ looks.last_where test (entries_of a)) → later ≡ looks.last_where test (entries_of b) → result ≡ looks.last_where test (entries_of (a ++ b)) }
{
    match later {
        Some((position, place, after)) => {
            Some((position.saturating_add(entries as u64), place, after))
        }
        None => match earlier {
            Some((position, place, after)) => Some((position, place, after.saturating_add(darks))),
            None => None,
        },
    }
}
