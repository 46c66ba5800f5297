//! Marks of sources.
ghost use Rattle.std.specs.Prelude.{◌≡◌, None};
ghost use Rattle.std.specs.Option.{option_copied};
ghost use Rattle.need_chains.specs.Chains.{first_marked as first_marked_of, mark_name as mark_name_of};

use crate::unit_heads::UnitHeads;

/// The first in byte order of the units of the sources that are marked.
pub(crate) fn first_marked<'a>(sources: &'a [UnitHeads], marks: &[bool]) -> Option<&'a [u8]>
    ensures { option_copied result ≡ first_marked_of None sources.now marks.now }
{
    let mut best = None;
    let mut left = marks;
    for source in sources {
        match left {
            [] => return best,
            [mark, rest @ ..] => {
                best = mark_name(best, source.unit.as_bytes(), *mark);
                left = rest;
            }
        }
    }
    best
}

/// The first in byte order of a name and, if it is marked, another.
fn mark_name<'a>(best: Option<&'a [u8]>, name: &'a [u8], mark: bool) -> Option<&'a [u8]>
    ensures { option_copied result ≡ mark_name_of (option_copied best.entry) name.now mark }
{
    match best {
        _ if !mark => best,
        Some(other) if !name.cmp(other).is_lt() => best,
        _ => Some(name),
    }
}
