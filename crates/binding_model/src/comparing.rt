//! Whether two lists of facts are one.

ghost use Rattle.std.specs.Prelude.{◌≡◌};
ghost use Rattle.std.specs.Bool.{Decides};

use rotor_base::{Facts, Link, Place, Ref, Row};

/// Whether two facts have the same references, links and groups, in the same order. It takes no memory.
pub fn same_facts(old: &Facts, new: &Facts) -> bool
    ensures { Decides result (old.now ≡ new.now) }
{
    same_refs(old.refs.as_slice(), new.refs.as_slice())
        && same_links(old.links.as_slice(), new.links.as_slice())
        && same_groups(old.groups.as_slice(), new.groups.as_slice())
}

fn same_refs(old: &[Ref], new: &[Ref]) -> bool
    ensures { Decides result (old.now ≡ new.now) }
{
    old == new
}

fn same_links(old: &[Link], new: &[Link]) -> bool
    ensures { Decides result (old.now ≡ new.now) }
{
    old == new
}

/// Whether two lists of groups are one.
pub fn same_groups(old: &[Row<Place>], new: &[Row<Place>]) -> bool
    ensures { Decides result (old.now ≡ new.now) }
{
    let mut rest = new;
    for group in old {
        match rest {
            [] => return false,
            [other, others @ ..] => {
                if !same_places(group.as_slice(), other.as_slice()) {
                    return false;
                }
                rest = others;
            }
        }
    }
    rest.is_empty()
}

fn same_places(old: &[Place], new: &[Place]) -> bool
    ensures { Decides result (old.now ≡ new.now) }
{
    old == new
}
