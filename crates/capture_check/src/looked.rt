//! Tables of a footprint and of looks, and what references and links would have by them.

ghost use Rattle.std.specs.Prelude.{◌≡◌, ℕ, ◌==◌, IfOk, OnOk, map};
ghost use Rattle.std.specs.List.{list_any};
ghost use Rattle.std.specs.Ordering.{nat_cmp};
ghost use Rattle.std.specs.BTreeMap.{get};
ghost use Rattle.std.specs.BTreeSet.{contains};
ghost use Rattle.rotor_base.specs.declared.place.Place.{Place};
ghost use Rattle.rotor_base.specs.Place.{same_place, place_cmp};
ghost use Rattle.shape_core.specs.Shape.{or_else, some_if};
ghost use Rattle.capture_check.specs.Would.{is_in, goal_by, source_by, ref_by, links_by, HasRefLooks, HasLinkLooks};

use crate::would::{would_link, would_ref};
use rotor_base::{Goal, Link, LinkLook, Memory, Place, Ref, RefLook};
use std::alloc::Global;
use std::collections::{BTreeMap, BTreeSet};

/// The members of a footprint.
pub type Members = BTreeSet<Place>;

/// The first look of each place.
pub type RefTable = BTreeMap<Place, RefLook>;

/// The first look of each number of a link.
pub type LinkTable = BTreeMap<u64, LinkLook>;

/// The declarations of a footprint as a set. `Memory` is the only error.
pub fn members_of(alloc: Global, decls: &[Place]) -> Result<Members, Memory>
    ensures { IfOk result (λ members. (d : Place) → contains place_cmp members d ≡ list_any (same_place d) decls.now) }
{
    let mut members = BTreeSet::new(alloc);
    for place in decls {
        members.insert(*place)?;
    }
    Ok(members)
}

/// Whether a goal is the declaration of a member.
pub fn is_in(members: &Members, goal: Goal) -> bool
    ensures { result ≡ is_in members.now goal }
{
    match goal {
        Goal::Decl(place) => members.contains(&place),
        Goal::Outside | Goal::Missing | Goal::Hidden | Goal::Blur { .. } => false,
    }
}

/// The looks of references by their places. If several looks have one place, the first counts. `Memory` is the only
/// error.
pub fn ref_table(alloc: Global, looks: &[RefLook]) -> Result<RefTable, Memory>
    ensures { IfOk result (HasRefLooks looks.now) }
{
    let mut table = BTreeMap::new(alloc);
    for look in looks {
        add_ref_look(&mut table, *look)?;
    }
    Ok(table)
}

/// Adds a look, if its place has none.
fn add_ref_look(table: &mut RefTable, look: RefLook) -> Result<(), Memory>
    ensures { OnOk result ((p : Place) → get place_cmp table.new p ≡ or_else (get place_cmp table.old p) (some_if (same_place look.at p) look)) }
{
    if !table.contains_key(&look.at) {
        table.insert(look.at, look)?;
    }
    Ok(())
}

/// The looks of links by their numbers. If several looks have one number, the first counts. `Memory` is the only error.
pub fn link_table(alloc: Global, looks: &[LinkLook]) -> Result<LinkTable, Memory>
    ensures { IfOk result (HasLinkLooks looks.now) }
{
    let mut table = BTreeMap::new(alloc);
    for look in looks {
        add_link_look(&mut table, *look)?;
    }
    Ok(table)
}

/// Adds a look, if its number has none.
fn add_link_look(table: &mut LinkTable, look: LinkLook) -> Result<(), Memory>
    ensures { OnOk result ((n : ℕ) → get nat_cmp table.new n ≡ or_else (get nat_cmp table.old n) (some_if (look.number == n) look)) }
{
    if !table.contains_key(&look.number) {
        table.insert(look.number, look)?;
    }
    Ok(())
}

/// The references that the renamed project will have, at the places of the old ones. The looks alone
/// determine the answer. `Memory` is the only error.
pub fn would_refs(
    alloc: Global,
    members: &Members,
    looks: &RefTable,
    refs: &[Ref],
) -> Result<Vec<Ref>, Memory>
    ensures { IfOk result (λ new. new.items ≡ map (ref_by members.now looks.now) refs.now) }
{
    let mut new = Vec::new(alloc);
    for old in refs {
        let look = looks.get(&old.at).copied();
        new.push(Ref {
            at: old.at,
            goal: goal_by(members, look, old.goal),
        })?;
    }
    Ok(new)
}

/// The goal by a look, and the old one if there is none.
fn goal_by(members: &Members, look: Option<RefLook>, old: Goal) -> Goal
    ensures { result ≡ goal_by members.now look old }
{
    match look {
        None => old,
        Some(look) => would_ref(look, is_in(members, look.goal)),
    }
}

/// The links that the renamed project will have, in the order of the old ones. The looks alone determine the answer.
/// `Memory` is the only error.
pub fn would_links(
    alloc: Global,
    members: &Members,
    looks: &LinkTable,
    links: &[Link],
) -> Result<Vec<Link>, Memory>
    ensures { IfOk result (λ new. new.items ≡ links_by members.now looks.now 0 links.now) }
{
    let mut new = Vec::new(alloc);
    for i in 0..links.len() {
        let look = looks.get(&(i as u64)).copied();
        new.push(Link {
            item: links[i].item,
            source: source_by(members, look, links[i].source),
        })?;
    }
    Ok(new)
}

/// The source by a look, and the old one if there is none.
fn source_by(members: &Members, look: Option<LinkLook>, old: Goal) -> Goal
    ensures { result ≡ source_by members.now look old }
{
    match look {
        None => old,
        Some(look) => would_link(look, is_in(members, Goal::Decl(look.item))),
    }
}
